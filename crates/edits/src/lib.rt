// Insert and delete as lists of word stores, in their order. Insert links the new cell before anything leads to it, and delete
// goes the other way; each has one central store, by which a cut call counts as made or not.
#![tactic(auto)]

ghost use Rattle.std.specs.Prelude.{◌≡◌, ◌+◌, ◌-◌, ◌*◌, ◌/◌, ◌≤◌, ◌<◌};
ghost use Rattle.layout.specs.Words.{InRange, link_words, cell_count, cell_at, count_at, size_of};
ghost use Rattle.stores.specs.Stores.{write, Inside};
ghost use Rattle.edits.specs.Edits.{insert_links, insert_stores, delete_links, Placed};

use layout::Layout;
use requests::Site;
use stores::Write;

// How many stores link a new cell into its list.
pub const INSERT_LINKS: usize = 6;

// The store of a value to word f of cell i.
fn set_word(l: Layout, i: u16, f: usize, value: u16) -> Write
    requires { InRange l × (i < cell_count l) × (f < link_words) }
    ensures { result ≡ write (cell_at l i + f) value }
{
    let at = (l.cell(i) + f) as u16;
    Write { at, value }
}

// The store of the count of list k.
fn set_count(l: Layout, k: u16, value: u16) -> Write
    requires { InRange l × (k < l.lists) }
    ensures { result ≡ write (count_at l k) value }
{
    let at = (l.header(k) + Layout::COUNT) as u16;
    Write { at, value }
}

// The stores of an insert behind those of the record: the new cell, the count and the two links to the cell.
pub fn insert_links(l: Layout, k: u16, t: Site) -> [Write; INSERT_LINKS]
    requires { Placed l k t }
    ensures links { result ≡ insert_links l k t }
    ensures inside { Inside (size_of l) result }
{
    [
        set_word(l, t.cell, Layout::FORWARD, t.after),
        set_word(l, t.cell, Layout::BACK, t.before),
        set_word(l, t.cell, Layout::IDENTIFIER, Layout::ident(k)),
        set_count(l, k, t.count + 1),
        set_word(l, t.before, Layout::FORWARD, t.cell),
        set_word(l, t.after, Layout::BACK, t.cell),
    ]
}

// How many stores an insert makes: the words of the record, and those behind them.
fn insert_stores(l: Layout) -> usize
    requires { InRange l }
    ensures { result ≡ insert_stores l }
{
    l.node_words() - Layout::LINK_WORDS + INSERT_LINKS
}

// How many stores an insert of several records makes, of so many words in all.
pub fn several_stores(l: Layout, size: usize) -> u16
    requires { InRange l × (size / l.width ≤ l.nodes) }
    ensures { result ≡ size / l.width * insert_stores l }
{
    let width = l.width as usize;
    let records = size / width;
    (records * insert_stores(l)) as u16
}

// The stores of a delete in front of those of the record: the two links past the cell, the count and the cell's identifier.
pub fn delete_links(l: Layout, k: u16, t: Site) -> [Write; 4]
    requires { Placed l k t }
    ensures links { result ≡ delete_links l k t }
    ensures inside { Inside (size_of l) result }
{
    [
        set_word(l, t.after, Layout::BACK, t.before),
        set_word(l, t.before, Layout::FORWARD, t.after),
        set_count(l, k, t.count.saturating_sub(1)),
        set_word(l, t.cell, Layout::IDENTIFIER, Layout::FREE),
    ]
}
