// The words of a store (docs/FORMAT.md).
//
//     word 0      82 66 83, version 1, L, N, P, 0
//     word 8      L headers of 4 words: identifier, forward, back, count
//     word 8 + 4L N nodes of 3 + P words: identifier, forward, back, record
//
// Cells 0 to L - 1 are the headers and cells L to L + N - 1 the nodes. Every number of the layout stands here, once.
#![tactic(auto)]

ghost use Rattle.std.specs.Prelude.{◌≡◌, ◌≤◌, length};
ghost use Rattle.layout.specs.Words.{newest, most_lists, head_words, first_node, cell_count, Node, is_node, header_at, check_words, tail_words, node_words, nodes_at, node_at, cell_at, size_of, number_of, ident_of, is_free, in_use, between, in_range, InRange, marked, opened_by, head, empty_header};
ghost use Rattle.layout.specs.Cells.{Gridded};

// Version, L, N and P of a store.
#[derive(Clone, Copy, Debug, PartialEq, Eq)]
pub struct Layout {
    pub version: u16,
    pub lists: u16,
    pub nodes: u16,
    pub width: u16,
}

// What the address of a node is computed from: node y begins at word first + step * y - low.
#[derive(Clone, Copy)]
pub struct Grid {
    pub first: usize,
    pub step: usize,
    pub low: usize,
    pub from: usize,
    pub to: usize,
}

// The words of a cell that a walk compares and follows.
#[derive(Clone, Copy)]
pub struct Cell {
    pub ident: u16,
    pub forward: usize,
    pub back: usize,
}

// Why a call is refused: the question whose answer is no. Its number stands in docs/FORMAT.md.
#[derive(Clone, Copy, Debug, PartialEq, Eq)]
pub enum Refusal {
    Short = 1,
    NoStore = 2,
    Range = 3,
    Size = 4,
    NoList = 5,
    Unsound = 6,
    NoPosition = 7,
    NoNode = 8,
    RecordSize = 9,
    Full = 10,
    NoFit = 11,
    TwoFit = 12,
    NotFree = 13,
}

impl Refusal {
    pub fn number(self) -> u16
        ensures { result ≡ number_of self }
    {
        self as u16
    }
}

impl Layout {
    // Words 0 to 2, the newest version, and word 7.
    pub const MARK_0: u16 = 82;

    pub const MARK_1: u16 = 66;

    pub const MARK_2: u16 = 83;

    pub const NEWEST: u16 = 1;

    pub const SPARE: u16 = 0;

    // Where the version, L, N, P and the spare word stand.
    pub const VERSION_AT: usize = 3;

    pub const LISTS_AT: usize = 4;

    pub const NODES_AT: usize = 5;

    pub const WIDTH_AT: usize = 6;

    pub const SPARE_AT: usize = 7;

    // The largest L, N and P, the least of each is 1; and the most cells.
    pub const MAX_LISTS: usize = 8;

    pub const MAX_NODES: usize = 2000;

    pub const MAX_WIDTH: usize = 13;

    pub const MAX_CELLS: usize = Layout::MAX_LISTS + Layout::MAX_NODES;

    // The words in front of the headers, of a header, and of a cell in front of a node's record.
    pub const HEAD_WORDS: usize = 8;

    pub const HEADER_WORDS: usize = 4;

    pub const LINK_WORDS: usize = 3;

    // The most words of a store.
    pub const MAX_WORDS: usize = Layout::HEAD_WORDS
        + Layout::HEADER_WORDS * Layout::MAX_LISTS
        + (Layout::LINK_WORDS + Layout::MAX_WIDTH) * Layout::MAX_NODES;

    // The words of a cell.
    pub const IDENTIFIER: usize = 0;

    pub const FORWARD: usize = 1;

    pub const BACK: usize = 2;

    pub const COUNT: usize = 3;

    // The identifier of list 0, of a node that is free, and of one that is worn.
    pub const IDENT: u16 = 42400;

    pub const FREE: u16 = 0;

    pub const WORN: u16 = 65535;

    // Are the version, L, N and P in range? (No invariant of the type: format and the definitions speak of layouts that are not.)
    pub fn in_range(self) -> bool
        ensures { result ≡ in_range self }
    {
        if !known(self.version) {
            return false;
        }
        if !within(self.lists, Layout::MAX_LISTS) {
            return false;
        }
        if !within(self.nodes, Layout::MAX_NODES) {
            return false;
        }
        within(self.width, Layout::MAX_WIDTH)
    }

    // The first cell that is a node.
    pub fn first_node(self) -> u16
        ensures { result ≡ first_node self }
    {
        self.lists
    }

    // The number of cells, headers and nodes.
    pub fn cell_count(self) -> u16
        requires { InRange self }
        ensures { result ≡ cell_count self }
    {
        self.lists + self.nodes
    }

    // Is cell i a node?
    pub fn is_node(self, i: u16) -> bool
        requires { InRange self }
        ensures { result ≡ is_node self i }
    {
        if i < self.first_node() {
            return false;
        }
        i < self.cell_count()
    }

    // The identifier of list k.
    pub fn ident(k: u16) -> u16
        requires { k ≤ most_lists }
        ensures { result ≡ ident_of k }
    {
        Layout::IDENT + k
    }

    // Is a node with this identifier free?
    pub fn is_free(ident: u16) -> bool
        ensures { result ≡ is_free ident }
    {
        ident == Layout::FREE
    }

    // Is it neither free nor worn, and so in use?
    pub fn in_use(ident: u16) -> bool
        ensures { result ≡ in_use ident }
    {
        !(Layout::is_free(ident) | (ident == Layout::WORN))
    }

    // The first word of the header of list k.
    pub fn header(self, k: u16) -> usize
        ensures { result ≡ header_at self k }
    {
        Layout::HEAD_WORDS + Layout::HEADER_WORDS * (k as usize)
    }

    // The word behind the headers, where the nodes begin.
    pub fn nodes_at(self) -> usize
        ensures { result ≡ nodes_at self }
    {
        Layout::HEAD_WORDS + Layout::HEADER_WORDS * (self.lists as usize)
    }

    // The words of a node behind its record: version 1 has none.
    fn check_words(self) -> usize
        ensures { result ≡ check_words self }
    {
        0
    }

    // The words of a node.
    pub fn node_words(self) -> usize
        ensures { result ≡ node_words self }
    {
        Layout::LINK_WORDS + self.width as usize + self.check_words()
    }

    // The first word of node i.
    pub fn node(self, i: u16) -> usize
        requires { first_node self ≤ i }
        ensures { result ≡ node_at self i }
    {
        let n = i - self.first_node();
        self.nodes_at() + self.node_words() * (n as usize)
    }

    // The first word of cell i.
    pub fn cell(self, i: u16) -> usize
        ensures { result ≡ cell_at self i }
    {
        if i < self.first_node() {
            self.header(i)
        } else {
            self.node(i)
        }
    }

    // The number of words of a store.
    pub fn size(self) -> usize
        ensures { result ≡ size_of self }
    {
        self.nodes_at() + self.node_words() * (self.nodes as usize)
    }

    // The first eight words of a store.
    pub fn head(self) -> [u16; Layout::HEAD_WORDS]
        ensures { result ≡ head self }
    {
        [
            Layout::MARK_0,
            Layout::MARK_1,
            Layout::MARK_2,
            self.version,
            self.lists,
            self.nodes,
            self.width,
            Layout::SPARE,
        ]
    }

    // The words of the header of list k, while it is empty.
    pub fn empty_header(k: u16) -> [u16; Layout::HEADER_WORDS]
        requires { k ≤ most_lists }
        ensures { result ≡ empty_header k }
    {
        [Layout::ident(k), k, k, 0]
    }
}

// (That a grid is its layout's is asked here alone: whoever reads a store has a Store, which holds it.)
impl Grid {
    pub fn of(l: Layout) -> Self
        requires { InRange l }
        ensures { Gridded l result }
    {
        let step = l.node_words();
        let from = l.first_node() as usize;
        Self {
            first: l.nodes_at(),
            step,
            low: step * from,
            from,
            to: l.cell_count() as usize,
        }
    }

    // Is cell y a node?
    pub fn is_node(self, l: Layout, y: usize) -> bool
        requires { Gridded l self }
        ensures { result ≡ is_node l y }
    {
        if y < self.from {
            return false;
        }
        y < self.to
    }

    // The first word of node y.
    pub fn place(self, l: Layout, y: usize) -> usize
        requires { Gridded l self × InRange l × Node l y }
        ensures { result ≡ cell_at l y }
    {
        self.step * y + self.first - self.low
    }

    // The words of a node behind its links.
    pub fn tail(self, l: Layout) -> u16
        requires { Gridded l self × InRange l }
        ensures { result ≡ tail_words l }
    {
        (self.step - Layout::LINK_WORDS) as u16
    }
}

// Is x at least 1 and at most max?
fn within(x: u16, max: usize) -> bool
    ensures { result ≡ between 1 max x }
{
    if x < 1 {
        return false;
    }
    x as usize <= max
}

// Is there such a version?
fn known(version: u16) -> bool
    ensures { result ≡ between 1 newest version }
{
    within(version, Layout::NEWEST as usize)
}

// Do words 0 to 3 and 7 stand as laid out?
fn is_marked(head: &[u16]) -> bool
    requires { head_words ≤ length head.now }
    ensures { result ≡ marked head.now }
{
    if head[0] != Layout::MARK_0 {
        return false;
    }
    if head[1] != Layout::MARK_1 {
        return false;
    }
    if head[2] != Layout::MARK_2 {
        return false;
    }
    if !known(head[Layout::VERSION_AT]) {
        return false;
    }
    head[Layout::SPARE_AT] == Layout::SPARE
}

// Questions 2 to 4 of a store of n words, eight or more, that begins with the words of head.
pub fn open_with(n: usize, head: &[u16]) -> Result<Layout, Refusal>
    requires { (head_words ≤ n) × (head_words ≤ length head.now) }
    ensures { result ≡ opened_by n head.now }
{
    if !is_marked(head) {
        return Err(Refusal::NoStore);
    }
    let l = Layout {
        version: head[Layout::VERSION_AT],
        lists: head[Layout::LISTS_AT],
        nodes: head[Layout::NODES_AT],
        width: head[Layout::WIDTH_AT],
    };
    if !l.in_range() {
        return Err(Refusal::Range);
    }
    if n != l.size() {
        return Err(Refusal::Size);
    }
    Ok(l)
}
