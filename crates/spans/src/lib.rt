// A list walked from both ends at once. What the two walks have yet to meet is a span: so many cells between two cells. A round
// takes its first and its last cell away, if they are right; in the middle nothing is left, or one cell. The nodes are tallied by
// their identifiers, and the free ones by their records too. What stands here is decided
// of values; crate walks reads the cells.
#![tactic(auto)]

ghost use Rattle.std.specs.Prelude.{◌≡◌, ◌<◌};
ghost use Rattle.layout.specs.Words.{most_lists};
ghost use Rattle.spans.specs.Spans.{no_tally, with_free, with_other, FewIn, whole_span, Narrowed, Closed, Single, Decides};

use layout::{Cell, Layout};

// So many cells between the cells `start` and `end`, of which start leads to the first, and end back to the last.
#[derive(Clone, Copy, Debug, PartialEq, Eq)]
pub struct Span {
    pub count: u16,
    pub start: usize,
    pub first: usize,
    pub last: usize,
    pub end: usize,
}

// How many nodes are in use, and how many are free and have a record that is not blank.
#[derive(Clone, Copy, Debug, PartialEq, Eq)]
pub struct Tally {
    pub used: u32,
    pub unwiped: u32,
}

impl Tally {
    // The tally of no node.
    pub fn none() -> Self
        ensures { result ≡ no_tally }
    {
        Self {
            used: 0,
            unwiped: 0,
        }
    }

    // The tally with one free node more. Is its record blank?
    pub fn with_free(self, blank: bool) -> Self
        requires { FewIn self }
        ensures { result ≡ with_free self blank }
    {
        Self {
            unwiped: self.unwiped + u32::from(!blank),
            ..self
        }
    }

    // The tally with one node more that is not free, and has this identifier: it is in use or worn.
    pub fn with_other(self, ident: u16) -> Self
        requires { FewIn self }
        ensures { result ≡ with_other self ident }
    {
        Self {
            used: self.used + u32::from(Layout::in_use(ident)),
            ..self
        }
    }
}

impl Span {
    // The whole of list k, whose header is h and whose count is n: from the header round to the header.
    pub fn whole(k: u16, n: u16, h: Cell) -> Self
        ensures { result ≡ whole_span k n h }
    {
        Self {
            count: n,
            start: k as usize,
            first: h.forward,
            last: h.back,
            end: k as usize,
        }
    }

    // One round, whose first cell is c and whose last is d: the span without them, or one of them is wrong.
    pub fn round(self, k: u16, c: Cell, d: Cell) -> Option<Span>
        requires { (k < most_lists) × (1 < self.count) }
        ensures { Narrowed self k c d result }
    {
        let id = Layout::ident(k);
        if c.ident != id {
            return None;
        }
        if c.back != self.start {
            return None;
        }
        if d.ident != id {
            return None;
        }
        if d.forward != self.end {
            return None;
        }
        Some(Self {
            count: self.count - 2,
            start: self.first,
            first: c.forward,
            last: d.back,
            end: self.last,
        })
    }

    // No cell is left: do the two ends lead to each other?
    pub fn is_closed(self) -> bool
        ensures { Decides result (Closed self) }
    {
        if self.first != self.end {
            return false;
        }
        self.last == self.start
    }

    // One cell is left, m: do the two ends lead to it, and it to them?
    pub fn is_single(self, k: u16, m: Cell) -> bool
        requires { k < most_lists }
        ensures { Decides result (Single self k m) }
    {
        if self.first != self.last {
            return false;
        }
        if m.ident != Layout::ident(k) {
            return false;
        }
        if m.back != self.start {
            return false;
        }
        m.forward == self.end
    }
}
