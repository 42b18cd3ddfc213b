// What the programs share: rows of words and endings of calls as text, and reading all of an input.
#![tactic(auto)]

ghost use Rattle.std.specs.Prelude.{◌∷◌, ◌<◌, ◌≤◌, Some, flat_map, length, take, IfOk};
ghost use Rattle.std.specs.Fmt.{decimal};
ghost use Rattle.std.specs.Io.KnownBytes.{Consumes, IsAtEnd};
ghost use Rattle.printing.specs.Ending.{ending_text};

use calls::Answer;
use std::fmt;
use std::io::{self, Read};
use stores::Outcome;

// Words, a space in front of each.
#[derive(Clone, Copy)]
pub struct Row<'a>(pub &'a [u16]);

impl fmt::Display for Row<'_> {
    ghost output = { λ row. Some (flat_map (λ x. 32 ∷ decimal x) row.0.now) };

    fn fmt<W: fmt::Write>(&self, f: &mut fmt::Formatter<W>) -> fmt::Result {
        for x in self.0 {
            write!(f, " {x}")?;
        }
        Ok(())
    }
}

// How a call that stores ended.
#[derive(Clone, Copy)]
pub struct Ending(pub Answer);

impl fmt::Display for Ending {
    ghost output = { λ ending. Some (ending_text ending.0) };

    fn fmt<W: fmt::Write>(&self, f: &mut fmt::Formatter<W>) -> fmt::Result {
        match self.0 {
            Ok(Outcome::Done(n)) => write!(f, "done {n}"),
            Ok(Outcome::Stopped(n)) => write!(f, "stopped {n}"),
            Err(refusal) => {
                let n = refusal.number();
                write!(f, "refused {n}")
            }
        }
    }
}

// Reads until the bytes are full or the input ends; the answer is how many were read. (std's `copy` and `take` do not say how many
// at most, where the input is not known; so the loop stands.)
pub fn read_full<R: Read>(input: &mut R, bytes: &mut [u8]) -> io::Result<usize>
    ensures bound { IfOk result (λ n. n ≤ length bytes.new) }
    ensures bytes { IfOk result (λ n. Consumes (R.remaining input.old) (R.remaining input.new) (take n bytes.new)) }
    ensures end { IfOk result (λ n. n < length bytes.new → IsAtEnd (R.remaining input.new)) }
{
    let mut n = 0;
    while n < bytes.len() {
        let got = input.read(&mut bytes[n..])?;
        if got == 0 {
            break;
        }
        n += got;
    }
    Ok(n)
}
