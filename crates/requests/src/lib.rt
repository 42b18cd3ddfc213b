// Questions 5 to 10 and 13. A request says what a call asks of the lists, and the site is what it gets: a cell with the cells before
// and after it, and the list's length. All is decided before the first store. Crate sites finds the site in what is lent.
#![tactic(auto)]

ghost use Rattle.std.specs.Prelude.{◌≡◌, leb, Ok, Err};
ghost use Rattle.layout.specs.Words.{ask, is_node, InRange, Node};
ghost use Rattle.layout.specs.declared.Refusal.TheVariants.{NoPosition, NoNode, RecordSize};
ghost use Rattle.requests.specs.Requests.{next_cell, ask_gap, ask_gaps, list_of};

use layout::{Layout, Refusal};

// What a call asks for. (A value and no closure, since the definitions of the calls speak of it.)
#[derive(Clone, Copy, Debug, PartialEq, Eq)]
pub enum Request {
    // The store is sound.
    Check,
    // A whole list.
    Whole(u16),
    // The member of a list at a position.
    Member(u16, u16),
    // The gap of a list at a position, with a free cell searched from a starting cell for a record of so many words.
    Gap(u16, u16, u16, usize),
    // The same with free cells for several records, of so many words in all.
    Gaps(u16, u16, u16, usize),
    // A free node, to be marked.
    Mark(u16),
}

// Where a call works.
#[derive(Clone, Copy, Debug, PartialEq, Eq)]
pub struct Site {
    pub before: u16,
    pub cell: u16,
    pub after: u16,
    pub count: u16,
}

// The same with the layout of the store.
#[derive(Clone, Copy, Debug, PartialEq, Eq)]
pub struct Look {
    pub layout: Layout,
    pub site: Site,
}

// The first and the last of the cells for several records, in order of use.
#[derive(Clone, Copy, Debug, PartialEq, Eq)]
pub struct Ends {
    pub first: u16,
    pub last: u16,
}

// The node after node c, which after the last is the first.
pub fn next_cell(l: Layout, c: u16) -> u16
    requires { InRange l × Node l c }
    ensures { result ≡ next_cell l c }
{
    if c + 1 == l.cell_count() {
        return l.first_node();
    }
    c + 1
}

// The list that a request names; a check and a mark name none, and ask nothing of list 0 that every store does not answer.
pub fn list_of(q: Request) -> u16
    ensures { result ≡ list_of q }
{
    match q {
        Request::Check => 0,
        Request::Whole(k) => k,
        Request::Member(k, _) => k,
        Request::Gap(k, _, _, _) => k,
        Request::Gaps(k, _, _, _) => k,
        Request::Mark(_) => 0,
    }
}

// Questions 7 to 9, of which the last is whether the size fits.
fn place_asked(l: Layout, n: u16, p: u16, start: u16, fits: bool) -> Result<(), Refusal>
    requires { InRange l }
    ensures { result ≡ ask (leb p n) (Err NoPosition) (ask (is_node l start) (Err NoNode) (ask fits (Err RecordSize) (Ok tt))) }
{
    if n < p {
        return Err(Refusal::NoPosition);
    }
    if !l.is_node(start) {
        return Err(Refusal::NoNode);
    }
    if !fits {
        return Err(Refusal::RecordSize);
    }
    Ok(())
}

// Questions 7 to 9 of a record.
pub fn gap_asked(l: Layout, n: u16, p: u16, start: u16, size: usize) -> Result<(), Refusal>
    requires { InRange l }
    ensures { result ≡ ask_gap l n p start size Err (Ok tt) }
{
    place_asked(l, n, p, start, size == l.width as usize)
}

// Questions 7 to 9 of several records.
pub fn gaps_asked(l: Layout, n: u16, p: u16, start: u16, size: usize) -> Result<(), Refusal>
    requires { InRange l }
    ensures { result ≡ ask_gaps l n p start size Err (Ok tt) }
{
    place_asked(l, n, p, start, 0 < size && size % l.width as usize == 0)
}
