// Writes the listing of a store to standard output. The store is read from standard input, in byte form.
#![tactic(auto)]

use printing::read_full;
use std::io;

fn main(rt: HostRuntime) -> io::Result<()> {
    // one byte more than a store has, so that too many are seen
    let mut bytes = [0; listing_text::MAX_BYTES + 1];
    let got = read_full(&mut rt.stdin(), &mut bytes)?;
    let mut out = [0; listing_text::LONGEST];
    let n = listing_text::listing_of_bytes(&bytes[..got], &mut out);
    rt.write_all(&out[..n])
}
