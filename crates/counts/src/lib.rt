// Recovery's stores to nodes outside all lists, counted; none is made. A node's record words are asked together whether all are 0; only where
// they are not, those that are not are counted.
#![tactic(auto)]

ghost use Rattle.std.specs.Prelude.{◌≡◌, ◌+◌, ◌≤◌, length, replicate};
ghost use Rattle.stores.specs.Stores.{in_row};
ghost use Rattle.layout.specs.Words.{first_node, Node};
ghost use Rattle.lists.specs.Lists.{blank_asked};
ghost use Rattle.recovery.specs.Fits.{wrong};
ghost use Rattle.mending.specs.Mending.{wipes_of, wipes, outside_of, outside_from};

use form::Form;
use layout::Layout;
use walks::Store;

// How many of the n words from a on are not 0.
fn row_wipes<E: Form>(s: &Store<E>, a: usize, n: u16) -> u16
    requires { a + n ≤ length (E.words_in s.now.lent.now) }
    ensures { result ≡ length (wrong (E.words_in s.now.lent.now) (in_row a (replicate n 0))) }
{
    let mut count: u16 = 0;
    for b in a..a + usize::from(n) {
        if E::word(s.lent, b) != 0 {
            count += 1;
        }
    }
    count
}

// How many wipes the record of node c needs. (Inlined: with a call for each free node the loops below take a quarter longer, or more.)
#[inline(always)]
fn record_wipes<E: Form>(s: &Store<E>, c: usize) -> u16
    requires { Node s.now.layout c }
    ensures { result ≡ length (wrong (E.words_in s.now.lent.now) (blank_asked s.now.layout c)) }
{
    let a = s.grid.place(s.layout, c) + Layout::LINK_WORDS;
    let n = s.grid.tail(s.layout);
    if s.blank(a, n) {
        return 0;
    }
    row_wipes(s, a, n)
}

// How many wipes node c needs: those of its record, if it is free.
fn node_wipes<E: Form>(s: &Store<E>, c: usize) -> u16
    requires { Node s.now.layout c }
    ensures { result ≡ length (wipes_of s.now.layout (E.words_in s.now.lent.now) c) }
{
    if !Layout::is_free(s.node(c).ident) {
        return 0;
    }
    record_wipes(s, c)
}

// How many wipes the free nodes need.
pub fn free_wipes<E: Form>(s: &Store<E>) -> u16
    ensures { result ≡ length (wipes s.now.layout (E.words_in s.now.lent.now)) }
{
    let mut count: u16 = 0;
    for c in s.grid.from..s.grid.to {
        count += node_wipes(s, c);
    }
    count
}

// How many stores go to node c, which is in no list, by its entry in the column: none if that is a member's or a worn node's.
fn node_stores<E: Form>(s: &Store<E>, c: usize, entry: u16) -> u16
    requires { Node s.now.layout c }
    ensures { result ≡ outside_of s.now.layout (E.words_in s.now.lent.now) entry c }
{
    if Layout::is_free(entry) {
        return record_wipes(s, c);
    }
    if Layout::in_use(entry) {
        return 1 + record_wipes(s, c);
    }
    0
}

// How many stores go to the nodes outside all lists, by the column: clears and wipes.
pub fn outside_stores<E: Form>(s: &Store<E>, idents: &[u16; Layout::MAX_CELLS]) -> u16
    ensures { result ≡ outside_from s.now.layout (E.words_in s.now.lent.now) idents.now (first_node s.now.layout) s.now.layout.nodes }
{
    let mut count: u16 = 0;
    for c in s.grid.from..s.grid.to {
        count += node_stores(s, c, idents[c]);
    }
    count
}
