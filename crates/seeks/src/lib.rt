// A walk to a cell of a list: a state by value, whose step follows one link and hands the next state back. It is run with a budget of
// steps, and has then arrived at a cell, or the budget is spent; with half of the list's length, rounded up, it always arrives.
#![tactic(auto)]

ghost use Rattle.std.specs.Prelude.{◌≡◌, ◌<◌, ◌≤◌, ◌∷◌, Some, get_or};
ghost use Rattle.lists.specs.Decide.{view_of, sequence_of, HeldList};
ghost use Rattle.spans.specs.Spans.{cell_in};
ghost use Rattle.seeks.specs.Seeks.{nearer, stepped, run_with, half, Inside};

use form::Form;
use layout::Cell;
use walks::Store;

// Where a walk stands, the links that it has yet to follow, and whether these are forward links or back links.
#[derive(Clone, Copy)]
pub struct Seek {
    pub at: usize,
    pub left: u16,
    pub ahead: bool,
}

impl Seek {
    // To cell q of the ring of list k, which has n members: the header is cell 0, and the walk starts there, the shorter way round.
    pub fn toward(k: u16, n: u16, q: u16) -> Self
        requires { q ≤ n }
        ensures { result ≡ nearer k n q }
    {
        if q <= n - q {
            return Self {
                at: k as usize,
                left: q,
                ahead: true,
            };
        }
        Self {
            at: k as usize,
            left: n - q + 1,
            ahead: false,
        }
    }

    // One link followed: that of the cell where the walk stands, c.
    pub fn step(self, c: Cell) -> Self
        requires { 0 < self.left }
        ensures { result ≡ stepped c self }
    {
        Self {
            at: if self.ahead { c.forward } else { c.back },
            left: self.left - 1,
            ..self
        }
    }
}

// The budget that always arrives in a list of n members: half of them, rounded up.
pub fn budget(n: u16) -> u16
    ensures { result ≡ half n }
{
    n / 2 + n % 2
}

// What a walk from header h comes to with a budget of so many steps: a cell, or the budget is spent. All other cells whose links it follows are
// nodes.
fn run<E: Form>(s: &Store<E>, h: Cell, t: Seek, budget: u16) -> Option<usize>
    requires header { h ≡ cell_in (view_of s.now.layout (E.words_in s.now.lent.now)) t.at }
    requires nodes { Inside s.now.layout (view_of s.now.layout (E.words_in s.now.lent.now)) (stepped h t) }
    ensures { result ≡ run_with (view_of s.now.layout (E.words_in s.now.lent.now)) budget t }
{
    if t.left == 0 {
        return Some(t.at);
    }
    if budget == 0 {
        return None;
    }
    let mut t = t.step(h);
    for _ in 1..budget {
        if t.left == 0 {
            return Some(t.at);
        }
        t = t.step(s.node(t.at));
    }
    if t.left == 0 { Some(t.at) } else { None }
}

// Where the walk to cell q of the ring of list k, which has n members, arrives: at that cell. The budget is never spent.
pub fn arrive<E: Form>(s: &Store<E>, k: u16, n: u16, q: u16) -> usize
    requires held { HeldList s.now.layout (view_of s.now.layout (E.words_in s.now.lent.now)) k n }
    requires cell { q ≤ n }
    ensures walk { Some result ≡ run_with (view_of s.now.layout (E.words_in s.now.lent.now)) (half n) (nearer k n q) }
    ensures cell { result ≡ get_or (k ∷ sequence_of s.now.layout (E.words_in s.now.lent.now) k) q 0 }
{
    run(s, s.header(k), Seek::toward(k, n, q), budget(n)).unwrap_or(usize::from(k))
}
