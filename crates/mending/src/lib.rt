// Recovery by correction. If one sequence is chosen for each list, its wrong word is to be stored and then its count, if that is wrong, list 0
// first, then 0 to each identifier of a node in no list that is neither 0 nor 65,535, and last 0 to each record word of a node in no list
// that is not worn. Which nodes these are is decided before the first store. Here stand what is found of the lists, the stores that mend a
// list, and the laws by which this is the plan of recovery.
#![tactic(auto)]

ghost use Rattle.std.specs.Prelude.{◌≡◌, ◌+◌, ◌<◌, ◌≤◌, ◌++◌, [], ◌∷◌, cond, ◌&&◌, eqb, length, option_to_list};
ghost use Rattle.layout.specs.Words.{most_cells, InRange};
ghost use Rattle.fitting.specs.Fitting.{mend_of, count_mend, FaultFits};
ghost use Rattle.mending.specs.declared.TheConstants.{MOST_MENDS};

use fitting::Faults;
use layout::{Cell, Layout};
use stores::Write;

// The most mends: two of each list.
pub const MOST_MENDS: usize = 2 * Layout::MAX_LISTS;

// The mends of a store, in order: the first `len` of the array, which has room for the most.
#[derive(Clone, Copy)]
pub struct MendList {
    writes: [Write; MOST_MENDS],
    len: usize,
    ghost few: { len ≤ MOST_MENDS },
}

// What is found of all lists, where none is refused: the mends, list 0 first; which lists go by their back links; how many members they have,
// and whether each is in use by its identifier. No gap is left between the fields: behind one, the mends would be copied from an odd address,
// which is slow.
#[derive(Clone, Copy)]
pub struct Mends {
    pub writes: MendList,
    pub back: [bool; Layout::MAX_LISTS],
    pub members: u32,
    pub carried: bool,
}

// What recovery finds of a store before its first store: what it finds of the lists; may a node in no list be in use by its identifier; has a
// free node a record?
#[derive(Clone, Copy)]
pub struct Found {
    pub mends: Mends,
    pub left: bool,
    pub unwiped: bool,
}

// The store that mends a fault, if it is one.
pub fn mend_of(l: Layout, f: Faults) -> Option<Write>
    requires { InRange l × FaultFits l f }
    ensures { option_to_list result ≡ mend_of l f }
{
    match f {
        Faults::One(c, w, value) => Some(Write {
            at: (l.cell(c) + usize::from(w)) as u16,
            value,
        }),
        Faults::None => None,
        Faults::Many => None,
    }
}

// The store that mends the count of list k, which is n and is to be m, if it is wrong.
pub fn count_mend(l: Layout, k: u16, n: u16, m: u16) -> Option<Write>
    requires { InRange l × (k < l.lists) }
    ensures { option_to_list result ≡ count_mend l k n m }
{
    if n == m {
        return None;
    }
    Some(Write {
        at: (l.header(k) + Layout::COUNT) as u16,
        value: m,
    })
}

impl MendList {
    ghost use Rattle.mending.specs.Mending.{writes_in};

    // No mend.
    pub fn none() -> Self
        ensures { writes_in result ≡ [] }
    {
        MendList {
            writes: [Write { at: 0, value: 0 }; MOST_MENDS],
            len: 0,
        }
    }

    // A mend more, at the end.
    pub fn push(&mut self, write: Write)
        requires { length (writes_in self.old) < MOST_MENDS }
        ensures { writes_in self.new ≡ writes_in self.old ++ write ∷ [] }
    {
        self.writes[self.len] = write;
        self.len += 1;
    }

    // The mends, in order.
    pub fn as_slice(&self) -> &[Write]
        ensures value { result.now ≡ writes_in self.now }
        ensures fits { length result.now ≤ MOST_MENDS }
    {
        &self.writes[..self.len]
    }

    // The number of mends.
    pub fn len(&self) -> usize
        ensures value { result ≡ length (writes_in self.now) }
        ensures fits { result ≤ MOST_MENDS }
    {
        self.as_slice().len()
    }
}

impl Mends {
    // Is every node in use a member? It is if the members are all in use by their identifiers and as many as the nodes that are, `used`.
    pub fn none_left(&self, used: u32) -> bool
        ensures { result ≡ (self.now.carried && eqb self.now.members used) }
    {
        self.carried && self.members == used
    }
}

// The list that is looked at together with list k: the next, or list k itself where it is the last.
pub fn beside(l: Layout, k: u16) -> u16
    requires { k < l.lists }
    ensures { (result < l.lists) × (k + 1 < l.lists → result ≡ k + 1) }
{
    if k + 1 < l.lists { k + 1 } else { k }
}

// The cell that a walk goes to behind cell c, by the back links or the forward links.
pub fn onward(c: Cell, back: bool) -> usize
    ensures { result ≡ cond back c.back c.forward }
{
    if back { c.back } else { c.forward }
}

// A column, of which a part is used.
pub fn column() -> [u16; Layout::MAX_CELLS]
    ensures { most_cells ≡ length result }
{
    [0; Layout::MAX_CELLS]
}
