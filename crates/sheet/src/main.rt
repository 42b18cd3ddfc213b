// Prints list 0 of a small store through the reader.
#![tactic(auto)]

use calls::Answer;
use printing::Row;
use std::io::{self, Write};

// The records of a list, until the reader hands out an empty part. No list has a record at the last position.
fn print_list(out: &mut impl Write, words: &[u16], list: u16) -> io::Result<()> {
    let mut rest = reader::over(words, list);
    for _ in 0..u16::MAX {
        let rec = reader::hand_out(rest);
        if rec.is_empty() {
            break;
        }
        writeln!(out, "{}", Row(rec))?;
        rest = reader::next(rest);
    }
    Ok(())
}

// Puts three records into list 0, the second one last.
fn fill(words: &mut [u16]) -> Answer {
    axle_store::insert(words, 0, 0, 2, &[1, 3120, 3050], 65535)?;
    axle_store::insert(words, 0, 1, 2, &[3, 2760, 2800], 65535)?;
    axle_store::insert(words, 0, 1, 2, &[2, 2870, 2910], 65535)
}

fn main(rt: HostRuntime) -> io::Result<()> {
    // two lists of records of three words in six nodes: 8 + 4 x 2 + 6 x 6 words
    let mut words = [0; 52];
    let _ = axle_store::format(&mut words, 2, 6, 3);
    let _ = fill(&mut words);
    print_list(&mut io::writer(&rt), &words, 0)
}
