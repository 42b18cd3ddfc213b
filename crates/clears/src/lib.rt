// Nodes in no list, found and cleared: the identifiers are read into a column, the members erased there, and those left that say in use
// cleared.
#![tactic(auto)]

ghost use Rattle.std.specs.Prelude.{◌≡◌, ℕ, ◌+◌, ◌<◌, [], ◌∷◌, false, length, get_or, take};
ghost use Rattle.stores.specs.Stores.{write, outcome_of};
ghost use Rattle.layout.specs.Words.{most_cells, Laid, Node, ident_at};
ghost use Rattle.lists.specs.Decide.{view_of};
ghost use Rattle.fitting.specs.Fitting.{members_by};
ghost use Rattle.mending.specs.Mending.{erased, erased_along, erased_from, clears};

use form::Form;
use layout::Layout;
use stores::Outcome;
use walks::Store;

// Reads the identifier of each node into the column.
pub fn read_nodes<E: Form>(idents: &mut [u16; Layout::MAX_CELLS], s: &Store<E>)
    requires { most_cells ≡ length idents.old }
    ensures nodes { (c : ℕ) → Node s.now.layout c → get_or idents.new c 0 ≡ (view_of s.now.layout (E.words_in s.now.lent.now)).ident c }
    ensures room { most_cells ≡ length idents.new }
{
    for c in s.grid.from..s.grid.to {
        idents[c] = s.node(c).ident;
    }
}

// Erases in the column every cell that the links lead through from a cell on, n at most: its entry becomes that of a worn node, which is neither
// to be cleared nor wiped.
fn erase<E: Form>(
    idents: &mut [u16; Layout::MAX_CELLS],
    s: &Store<E>,
    back: bool,
    first: usize,
    n: u16,
)
    ensures { idents.new ≡ erased_along s.now.layout (view_of s.now.layout (E.words_in s.now.lent.now)) back n first idents.old }
{
    let mut y = first;
    for _ in 0..n {
        if !s.is_node(y) {
            return;
        }
        idents[y] = Layout::WORN;
        y = mending::onward(s.node(y), back);
    }
}

// Erases every member of lists k and j, each by its back links or its forward links: both in one loop, and then each alone. (What is left to
// count when the loop ends is needed behind it, so no `for`.)
fn erase_two<E: Form>(
    idents: &mut [u16; Layout::MAX_CELLS],
    s: &Store<E>,
    k: u16,
    back: bool,
    j: u16,
    other: bool,
)
    requires { (k < s.now.layout.lists) × (j < s.now.layout.lists) }
    ensures { idents.new ≡ erased (members_by s.now.layout (view_of s.now.layout (E.words_in s.now.lent.now)) other j) (erased (members_by s.now.layout (view_of s.now.layout (E.words_in s.now.lent.now)) back k) idents.old) }
{
    let mut y = mending::onward(s.header(k), back);
    let mut z = mending::onward(s.header(j), other);
    let mut more = s.layout.nodes;
    while 0 < more && s.is_node(y) && s.is_node(z) {
        idents[y] = Layout::WORN;
        idents[z] = Layout::WORN;
        y = mending::onward(s.node(y), back);
        z = mending::onward(s.node(z), other);
        more -= 1;
    }
    erase(idents, s, back, y, more);
    erase(idents, s, other, z, more);
}

// Erases every member of every list, each by the links that it goes by.
pub fn erase_all<E: Form>(
    idents: &mut [u16; Layout::MAX_CELLS],
    s: &Store<E>,
    back: &[bool; Layout::MAX_LISTS],
)
    ensures { idents.new ≡ erased_from s.now.layout (view_of s.now.layout (E.words_in s.now.lent.now)) (λ k. get_or back.now k false) 0 s.now.layout.lists idents.old }
{
    let lists = s.layout.lists;
    for i in 0..lists / 2 {
        let k = 2 * i;
        erase_two(
            idents,
            s,
            k,
            back[usize::from(k)],
            k + 1,
            back[usize::from(k + 1)],
        );
    }
    if lists % 2 == 1 {
        let k = lists - 1;
        let way = back[usize::from(k)];
        erase(
            idents,
            s,
            way,
            mending::onward(s.header(k), way),
            s.layout.nodes,
        );
    }
}

// Clears node i: stores 0 to its identifier, and nothing else.
fn step<E: Form>(lent: &mut [E], l: Layout, i: u16)
    requires { Laid l (E.words_in lent.old) × Node l i }
    ensures { lent.new ≡ E.after (write (ident_at l i) 0 ∷ []) lent.old }
{
    E::put(lent, l.node(i), Layout::FREE);
}

// Clears each node whose entry says in use, lowest cell first, up to the allowance.
pub fn clear<E: Form>(
    lent: &mut [E],
    idents: &[u16; Layout::MAX_CELLS],
    l: Layout,
    allowance: u16,
) -> Outcome
    requires { Laid l (E.words_in lent.old) }
    ensures outcome { result ≡ outcome_of (clears l idents.now) allowance }
    ensures lent { lent.new ≡ E.after (take allowance (clears l idents.now)) lent.old }
{
    let mut n: u16 = 0;
    for i in l.first_node()..l.cell_count() {
        if Layout::in_use(idents[usize::from(i)]) {
            if n == allowance {
                return Outcome::Stopped(n);
            }
            step(lent, l, i);
            n += 1;
        }
    }
    Outcome::Done(n)
}
