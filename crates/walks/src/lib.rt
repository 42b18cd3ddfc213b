// A store that is open, in either form, and its lists, decided in what is lent. The nodes in use are counted in one pass, which fetches the
// words in order, and compared with the sum of the counts; the same pass reads the records of the free nodes, four words at a time. Then each
// list is walked from both ends at once, and two lists in one loop: four chains of links, of which none waits for another.
#![tactic(auto)]

ghost use Rattle.std.specs.Prelude.{◌≡◌, ◌+◌, ◌*◌, ◌≤◌, ◌<◌, length, get_or};
ghost use Rattle.layout.specs.Words.{most_width, Laid, Node, is_node, first_node, cell_count, link_words, ident_of};
ghost use Rattle.lists.specs.Decide.{blank_from, view_of, count_in, sound_of};
ghost use Rattle.layout.specs.Cells.{Gridded, cell_of};
ghost use Rattle.spans.specs.Spans.{FewIn, tallied, tally_of, Decides, Held, count_sum, cell_in, whole_span, Spanned, Led, Rounded};

use form::Form;
use layout::{Cell, Grid, Layout};
use spans::{Span, Tally};

// What is lent, its layout, and what the address of a node is computed from.
#[derive(Drop)]
pub struct Store<'a, E: Form> {
    pub lent: &'a [E],
    pub layout: Layout,
    pub grid: Grid,
    ghost laid: { Laid layout (E.words_in lent.now) },
    ghost gridded: { Gridded layout grid },
}

impl<'a, E: Form> Store<'a, E> {
    pub fn of(lent: &'a [E], layout: Layout) -> Self
        requires { Laid layout (E.words_in lent.now) }
        ensures { (result.lent ≡ lent.entry) × (result.layout ≡ layout) }
    {
        Self {
            lent,
            layout,
            grid: Grid::of(layout),
        }
    }

    // The cell whose words begin at a: its identifier and links.
    fn cell_at(&self, a: usize) -> Cell
        requires { a + link_words ≤ length (E.words_in self.now.lent.now) }
        ensures { result ≡ cell_of (E.words_in self.now.lent.now) a }
    {
        links_of(E::from(self.lent, a))
    }

    // Node y.
    pub fn node(&self, y: usize) -> Cell
        requires { Node self.now.layout y }
        ensures { result ≡ cell_in (view_of self.now.layout (E.words_in self.now.lent.now)) y }
    {
        self.cell_at(self.grid.place(self.layout, y))
    }

    // The header of list k.
    pub fn header(&self, k: u16) -> Cell
        requires { k < self.now.layout.lists }
        ensures { result ≡ cell_in (view_of self.now.layout (E.words_in self.now.lent.now)) k }
    {
        self.cell_at(self.layout.header(k))
    }

    // Cell c, header or node.
    pub fn cell(&self, c: usize) -> Cell
        requires { c < cell_count self.now.layout }
        ensures { result ≡ cell_in (view_of self.now.layout (E.words_in self.now.lent.now)) c }
    {
        if c < self.grid.from {
            return self.header(c as u16);
        }
        self.node(c)
    }

    // The count of list k.
    pub fn count(&self, k: u16) -> u16
        requires { k < self.now.layout.lists }
        ensures { result ≡ count_in self.now.layout (E.words_in self.now.lent.now) k }
    {
        E::word(self.lent, self.layout.header(k) + Layout::COUNT)
    }

    // Is cell y a node?
    pub fn is_node(&self, y: usize) -> bool
        ensures { result ≡ is_node self.now.layout y }
    {
        self.grid.is_node(self.layout, y)
    }

    // The whole of list k.
    pub fn whole(&self, k: u16) -> Span
        requires { k < self.now.layout.lists }
        ensures { result ≡ whole_span k (count_in self.now.layout (E.words_in self.now.lent.now) k) (cell_in (view_of self.now.layout (E.words_in self.now.lent.now)) k) }
    {
        Span::whole(k, self.count(k), self.header(k))
    }

    // One round of the walks through list k.
    fn round(&self, k: u16, s: Span) -> Option<Span>
        requires { (k < self.now.layout.lists) × (1 < s.count) }
        ensures { Rounded self.now.layout (view_of self.now.layout (E.words_in self.now.lent.now)) k s result }
    {
        if !self.is_node(s.first) {
            return None;
        }
        if !self.is_node(s.last) {
            return None;
        }
        s.round(k, self.node(s.first), self.node(s.last))
    }

    // The middle of a list: no cell is left, or one.
    fn middle(&self, k: u16, s: Span) -> bool
        requires { (k < self.now.layout.lists) × (s.count < 2) × Led (view_of self.now.layout (E.words_in self.now.lent.now)) s }
        ensures { Decides result (Spanned self.now.layout (view_of self.now.layout (E.words_in self.now.lent.now)) k s) }
    {
        if s.count == 0 {
            return s.is_closed();
        }
        if !self.is_node(s.first) {
            return false;
        }
        s.is_single(k, self.node(s.first))
    }

    // Round after round: do the cells of the span lie between its ends? (Inlined, so that no span lies in memory while two lists are walked.)
    #[inline(always)]
    fn spanned(&self, k: u16, s: Span) -> bool
        requires { (k < self.now.layout.lists) × Led (view_of self.now.layout (E.words_in self.now.lent.now)) s }
        ensures { Decides result (Spanned self.now.layout (view_of self.now.layout (E.words_in self.now.lent.now)) k s) }
    {
        let mut s = s;
        while 1 < s.count {
            let Some(t) = self.round(k, s) else {
                return false;
            };
            s = t;
        }
        self.middle(k, s)
    }

    // The same of a span of list k and one of list j, in one loop as long as both have two cells; then each alone. (One list and two lists
    // have functions of their own, since two walks in one loop take little longer than one.)
    fn both_spanned(&self, k: u16, s: Span, j: u16, t: Span) -> bool
        requires { (k < self.now.layout.lists) × (j < self.now.layout.lists) × Led (view_of self.now.layout (E.words_in self.now.lent.now)) s × Led (view_of self.now.layout (E.words_in self.now.lent.now)) t }
        ensures { Decides result (Spanned self.now.layout (view_of self.now.layout (E.words_in self.now.lent.now)) k s × Spanned self.now.layout (view_of self.now.layout (E.words_in self.now.lent.now)) j t) }
    {
        let mut s = s;
        let mut t = t;
        while 1 < s.count && 1 < t.count {
            let Some(a) = self.round(k, s) else {
                return false;
            };
            let Some(b) = self.round(j, t) else {
                return false;
            };
            s = a;
            t = b;
        }
        self.spanned(k, s) && self.spanned(j, t)
    }

    // Has the header of list k the list's identifier?
    fn headed(&self, k: u16) -> bool
        requires { k < self.now.layout.lists }
        ensures { Decides result ((view_of self.now.layout (E.words_in self.now.lent.now)).ident k ≡ ident_of k) }
    {
        self.header(k).ident == Layout::ident(k)
    }

    // Does list k hold?
    pub fn one_holds(&self, k: u16) -> bool
        requires { k < self.now.layout.lists }
        ensures { Decides result (Held self.now.layout (view_of self.now.layout (E.words_in self.now.lent.now)) (count_in self.now.layout (E.words_in self.now.lent.now)) k) }
    {
        self.headed(k) && self.spanned(k, self.whole(k))
    }

    // Do lists k and j hold?
    pub fn two_hold(&self, k: u16, j: u16) -> bool
        requires { (k < self.now.layout.lists) × (j < self.now.layout.lists) }
        ensures { Decides result (Held self.now.layout (view_of self.now.layout (E.words_in self.now.lent.now)) (count_in self.now.layout (E.words_in self.now.lent.now)) k
            × Held self.now.layout (view_of self.now.layout (E.words_in self.now.lent.now)) (count_in self.now.layout (E.words_in self.now.lent.now)) j) }
    {
        if !self.headed(k) {
            return false;
        }
        if !self.headed(j) {
            return false;
        }
        let s = self.whole(k);
        let t = self.whole(j);
        self.both_spanned(k, s, j, t)
    }

    // Are the n words from a on all 0?
    pub fn blank(&self, a: usize, n: u16) -> bool
        requires { (n ≤ most_width) × (a + n ≤ length (E.words_in self.now.lent.now)) }
        ensures { result ≡ blank_from (E.words_in self.now.lent.now) a n }
    {
        blank(self.lent, a, n)
    }

    // The tally with one node more, whose words begin at a, n of them behind its links. Only a free node's record is read.
    fn with_node(&self, a: usize, n: u16, t: Tally) -> Tally
        requires { (n ≤ most_width) × (a + link_words + n ≤ length (E.words_in self.now.lent.now)) × FewIn t }
        ensures { result ≡ tallied t (get_or (E.words_in self.now.lent.now) a 0) (blank_from (E.words_in self.now.lent.now) (a + link_words) n) }
    {
        let ident = E::word(self.lent, a);
        if Layout::is_free(ident) {
            return t.with_free(self.blank(a + Layout::LINK_WORDS, n));
        }
        t.with_other(ident)
    }

    // How many nodes are in use, and how many are free and have a record that is not blank.
    pub fn tally(&self) -> Tally
        ensures { result ≡ tally_of (view_of self.now.layout (E.words_in self.now.lent.now)) (first_node self.now.layout) self.now.layout.nodes }
    {
        let tail = self.grid.tail(self.layout);
        let mut a = self.grid.first;
        let mut t = Tally::none();
        for _ in 0..self.layout.nodes {
            t = self.with_node(a, tail, t);
            a += self.grid.step;
        }
        t
    }

    // The sum of the counts, whatever they are.
    fn counted(&self) -> u32
        ensures { result ≡ count_sum (count_in self.now.layout (E.words_in self.now.lent.now)) self.now.layout.lists }
    {
        let mut n: u32 = 0;
        for k in 0..self.layout.lists {
            n += u32::from(self.count(k));
        }
        n
    }

    // Are the lists sound, and the records of the free nodes blank?
    pub fn is_sound(&self) -> bool
        ensures { result ≡ sound_of self.now.layout (E.words_in self.now.lent.now) }
    {
        let t = self.tally();
        if t.used != self.counted() {
            return false;
        }
        if t.unwiped != 0 {
            return false;
        }
        let lists = self.layout.lists;
        for i in 0..lists / 2 {
            if !self.two_hold(2 * i, 2 * i + 1) {
                return false;
            }
        }
        lists % 2 == 0 || self.one_holds(lists - 1)
    }
}

// The cell that the part begins with: its identifier and links.
fn links_of<E: Form>(part: &[E]) -> Cell
    requires { link_words ≤ length (E.words_in part.now) }
    ensures { result ≡ cell_of (E.words_in part.now) 0 }
{
    Cell {
        ident: E::word(part, Layout::IDENTIFIER),
        forward: usize::from(E::word(part, Layout::FORWARD)),
        back: usize::from(E::word(part, Layout::BACK)),
    }
}

// Two words from a on, as one number.
fn two<E: Form>(lent: &[E], a: usize) -> u32
    requires { a + 2 ≤ length (E.words_in lent.now) }
    ensures { result ≡ get_or (E.words_in lent.now) a 0 + 65536 * get_or (E.words_in lent.now) (a + 1) 0 }
{
    u32::from(E::word(lent, a)) + 65536 * u32::from(E::word(lent, a + 1))
}

// Are the four words from a on all 0?
fn four_blank<E: Form>(lent: &[E], a: usize) -> bool
    requires { a + 4 ≤ length (E.words_in lent.now) }
    ensures { result ≡ blank_from (E.words_in lent.now) a 4 }
{
    u64::from(two(lent, a)) + u64::from(two(lent, a + 2)) == 0
}

// Are the n words from a on all 0? They are added up, and the sum is asked once.
fn few_blank<E: Form>(lent: &[E], a: usize, n: u16) -> bool
    requires { (n ≤ most_width) × (a + n ≤ length (E.words_in lent.now)) }
    ensures { result ≡ blank_from (E.words_in lent.now) a n }
{
    let mut sum: u32 = 0;
    for i in 0..n {
        sum += u32::from(E::word(lent, a + usize::from(i)));
    }
    sum == 0
}

// The same of any words lent, four at a time; the last four may begin among those already asked.
pub fn blank<E: Form>(lent: &[E], a: usize, n: u16) -> bool
    requires { (n ≤ most_width) × (a + n ≤ length (E.words_in lent.now)) }
    ensures { result ≡ blank_from (E.words_in lent.now) a n }
{
    if n < 4 {
        return few_blank(lent, a, n);
    }
    for i in 0..(n - 1) / 4 {
        if !four_blank(lent, a + 4 * usize::from(i)) {
            return false;
        }
    }
    four_blank(lent, a + usize::from(n) - 4)
}
