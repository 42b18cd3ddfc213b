// A day at the bench on a small store: a bus's axles go in, one of them is measured again, the power is cut twice in the middle
// of an insert, and the store is recovered, checked and read back.
#![tactic(auto)]

use printing::{Ending, Row};
use std::io::{self, Write};

// Is the store sound?
fn print_check(out: &mut impl Write, words: &[u16]) -> io::Result<()> {
    match axle_store::check(words) {
        Ok(()) => writeln!(out, "check sound"),
        Err(refusal) => writeln!(out, "check refused {}", refusal.number()),
    }
}

// The records of a list, in order.
fn print_list(out: &mut impl Write, words: &[u16], list: u16) -> io::Result<()> {
    let Ok(n) = axle_store::length(words, list) else {
        return writeln!(out, "list {list} refused");
    };
    writeln!(out, "list {list} count {n}")?;
    for p in 0..n {
        writeln!(out, " {}", Row(axle_store::read(words, list, p)))?;
    }
    Ok(())
}

// Inserts a record of an axle: its number, and the brake forces left and right.
fn insert(
    out: &mut impl Write,
    words: &mut [u16],
    list: u16,
    position: u16,
    rec: &[u16],
    allowance: u16,
) -> io::Result<()> {
    let answer = axle_store::insert(words, list, position, 2, rec, allowance);
    writeln!(out, "insert {}", Ending(answer))
}

// The power is back: what the cut left, the recovery, and the list that it gives.
fn power_on(out: &mut impl Write, words: &mut [u16]) -> io::Result<()> {
    print_check(out, words)?;
    writeln!(out, "recover {}", Ending(axle_store::recover(words, 65535)))?;
    print_check(out, words)?;
    print_list(out, words, 0)
}

fn main(rt: HostRuntime) -> io::Result<()> {
    let out = &mut io::writer(&rt);
    // two lists of records of three words in six nodes: 8 + 4 x 2 + 6 x 6 words
    let mut words = [7; 52];
    let formatted = axle_store::format(&mut words, 2, 6, 3);
    writeln!(out, "format {}", calls::number(&formatted))?;
    insert(out, &mut words, 0, 0, &[1, 3120, 3050], 65535)?;
    insert(out, &mut words, 0, 1, &[2, 2890, 1240], 65535)?;
    insert(out, &mut words, 1, 0, &[1, 1810, 1790], 65535)?;
    print_list(out, &words, 0)?;
    // axle 2 is repaired and measured again: its old record goes, the new one takes its place
    let answer = axle_store::delete(&mut words, 0, 1, 65535);
    writeln!(out, "delete {}", Ending(answer))?;
    insert(out, &mut words, 0, 1, &[2, 2870, 2910], 65535)?;
    // a record of the wrong size and a position beyond the list are refused, and change nothing
    insert(out, &mut words, 0, 2, &[3], 65535)?;
    insert(out, &mut words, 0, 3, &[3, 2760, 2800], 65535)?;
    // an insert makes nine stores, the eighth is the central one: cut after seven, axle 3 is not in the list
    insert(out, &mut words, 0, 2, &[3, 2760, 2800], 7)?;
    power_on(out, &mut words)?;
    // cut after eight, it is
    insert(out, &mut words, 0, 2, &[3, 2760, 2800], 8)?;
    power_on(out, &mut words)?;
    print_list(out, &words, 1)
}
