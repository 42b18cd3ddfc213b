// Which sequence is chosen for a list. Only two can fit: what the forward links lead through, and what the back links do. Lists that hold are
// told at once, from both ends. Others are walked by their forward links, and by their back links if that does not decide; a walk's wrong
// words beside the count are summed up as none, one or many, its members are counted, and no sequence is kept. Two lists are walked in one
// loop: neither waits for the other.
#![tactic(auto)]

ghost use Rattle.std.specs.Prelude.{◌≡◌, ◌<◌, ◌≤◌, eqb, true};
ghost use Rattle.layout.specs.Words.{most_lists, most_cells};
ghost use Rattle.layout.specs.Cells.{Gridded};
ghost use Rattle.lists.specs.Decide.{view_of, count_in};
ghost use Rattle.spans.specs.Spans.{cell_in};
ghost use Rattle.fitting.specs.declared.Faults.TheVariants as F;
ghost use Rattle.fitting.specs.Fitting.{plus, fault, are_many, walk_with, decides, is_rival, ahead, behind, by_count, choose, way_of, fit_in, onward_word, backward_word, by_way, is_open, first_trail, next_trail, end_of, Trailing};

use form::Form;
use layout::{Cell, Grid, Layout, Refusal};
use walks::Store;

// The words of a cell, as a fault names them.
const IDENTIFIER: u16 = Layout::IDENTIFIER as u16;

const FORWARD: u16 = Layout::FORWARD as u16;

const BACK: u16 = Layout::BACK as u16;

// The wrong words of a sequence: word f of cell c is to hold v.
#[derive(Clone, Copy, Debug, PartialEq, Eq)]
pub enum Faults {
    None,
    One(u16, u16, u16),
    Many,
}

// A walk through a list: the wrong words that it met, the count not among them, and the number of members, which is not told where the
// wrong words are many.
#[derive(Clone, Copy, Debug, PartialEq, Eq)]
pub struct Walk {
    pub faults: Faults,
    pub members: u16,
}

// The walk that is chosen for a list, and whether it went by the back links.
#[derive(Clone, Copy, Debug, PartialEq, Eq)]
pub struct Chosen {
    pub walk: Walk,
    pub backward: bool,
}

// What is chosen for two lists: a list is refused where nothing fits, or where several sequences do and the count tells none of them.
#[derive(Clone, Copy, Debug, PartialEq, Eq)]
pub struct Fits {
    pub first: Result<Chosen, Refusal>,
    pub second: Result<Chosen, Refusal>,
}

// Where a walk through a list stands: by the back links or the forward links, with the wrong words that it met; the last cell that it met,
// the cell that it comes to, and how many nodes it may meet yet.
#[derive(Clone, Copy)]
pub struct Trail {
    pub back: bool,
    pub faults: Faults,
    pub last: u16,
    pub at: usize,
    pub left: u16,
}

impl Faults {
    // One word more is compared: it holds found and is to hold v.
    fn and(self, found: usize, c: u16, f: u16, v: u16) -> Self
        ensures { result ≡ plus self (fault found c f v) }
    {
        if found == usize::from(v) {
            return self;
        }
        match self {
            Faults::None => Faults::One(c, f, v),
            Faults::One(_, _, _) => Faults::Many,
            Faults::Many => Faults::Many,
        }
    }

    // Are they many? Whatever is compared then, they stay so.
    fn are_many(self) -> bool
        ensures { result ≡ are_many self }
    {
        matches!(self, Faults::Many)
    }

    // Do these faults of the forward walk decide alone? With none, or with one that is no back link, the back links lead through the
    // same sequence.
    fn decide(self) -> bool
        ensures { result ≡ decides self }
    {
        match self {
            Faults::None => true,
            Faults::One(_, w, _) => w != BACK,
            Faults::Many => false,
        }
    }

    // Do these faults of the back walk make it another sequence than a forward walk with a wrong back link? A wrong forward link does.
    fn is_rival(self) -> bool
        ensures { result ≡ is_rival self }
    {
        match self {
            Faults::None => false,
            Faults::One(_, w, _) => w == FORWARD,
            Faults::Many => false,
        }
    }
}

// The word of a cell that a walk follows.
fn onward(back: bool) -> u16
    ensures { result ≡ onward_word back }
{
    if back { BACK } else { FORWARD }
}

// The word of a cell that leads back.
fn backward(back: bool) -> u16
    ensures { result ≡ backward_word back }
{
    if back { FORWARD } else { BACK }
}

// A cell as a walk sees it: by the back links the other way round.
fn seen(c: Cell, back: bool) -> Cell
    ensures { result ≡ by_way back c }
{
    if back {
        Cell {
            forward: c.back,
            back: c.forward,
            ..c
        }
    } else {
        c
    }
}

impl Trail {
    // At the header h of list k.
    pub fn first(l: Layout, back: bool, k: u16, h: Cell) -> Self
        requires { k < most_lists }
        ensures { result ≡ first_trail l back k h }
    {
        Self {
            back,
            faults: Faults::None.and(usize::from(h.ident), k, IDENTIFIER, Layout::ident(k)),
            last: k,
            at: seen(h, back).forward,
            left: l.nodes,
        }
    }

    // Does it go on? Not with many faults, not behind N nodes, and not to a cell that is no node.
    pub fn open(self, l: Layout, g: Grid) -> bool
        requires { Gridded l g }
        ensures { result ≡ is_open l self }
    {
        if self.faults.are_many() {
            return false;
        }
        self.left != 0 && g.is_node(l, self.at)
    }

    // The cell that it comes to is c, of list k. Most often nothing is wrong.
    pub fn step(self, k: u16, c: Cell) -> Self
        requires { (k < most_lists) × (self.at ≤ most_cells) × (0 < self.left) }
        ensures { result ≡ next_trail k c self }
    {
        let s = seen(c, self.back);
        let at = self.at as u16;
        let id = Layout::ident(k);
        let next = Self {
            last: at,
            at: s.forward,
            left: self.left - 1,
            ..self
        };
        if c.ident == id && s.back == usize::from(self.last) {
            return next;
        }
        let faults = self.faults.and(usize::from(c.ident), at, IDENTIFIER, id);
        Self {
            faults: faults.and(s.back, at, backward(self.back), self.last),
            ..next
        }
    }

    // At the end of list k, whose header is h.
    pub fn end(self, l: Layout, k: u16, h: Cell) -> Walk
        requires { self.left ≤ l.nodes }
        ensures { result ≡ end_of l k h self }
    {
        let f = self.faults.and(self.at, self.last, onward(self.back), k);
        let faults = f.and(seen(h, self.back).back, k, backward(self.back), self.last);
        if faults.are_many() {
            return Walk { faults, members: 0 };
        }
        Walk {
            faults,
            members: l.nodes - self.left,
        }
    }
}

impl Walk {
    // A walk through a list that holds, whose count is n.
    pub fn right(n: u16) -> Self
        ensures { result ≡ walk_with F.None n }
    {
        Self {
            faults: Faults::None,
            members: n,
        }
    }

    // Does this walk, by the forward links, decide alone?
    pub fn decides(self) -> bool
        ensures { result ≡ decides self.faults }
    {
        self.faults.decide()
    }
}

impl Chosen {
    // A walk by the forward links.
    fn ahead(walk: Walk) -> Self
        ensures { result ≡ ahead walk }
    {
        Self {
            walk,
            backward: false,
        }
    }

    // A walk by the back links.
    fn behind(walk: Walk) -> Self
        ensures { result ≡ behind walk }
    {
        Self {
            walk,
            backward: true,
        }
    }
}

// Of the walks x and y, which both fit a list, whose count is n, the one of that length; neither, if both have it or none.
fn by_count(x: Walk, y: Walk, n: u16) -> Result<Chosen, Refusal>
    ensures { result ≡ by_count (eqb n x.members) (eqb n y.members) x y }
{
    match (n == x.members, n == y.members) {
        (true, false) => Ok(Chosen::ahead(x)),
        (false, true) => Ok(Chosen::behind(y)),
        _ => Err(Refusal::TwoFit),
    }
}

// Of the forward walk x and the back walk y of a list, whose count is n, the one that is chosen. Where both fit and are two, the count
// decides.
pub fn choice(x: Walk, y: Walk, n: u16) -> Result<Chosen, Refusal>
    ensures { result ≡ choose x y n }
{
    if x.decides() {
        return Ok(Chosen::ahead(x));
    }
    if x.faults.are_many() {
        if y.faults.are_many() {
            return Err(Refusal::NoFit);
        }
        return Ok(Chosen::behind(y));
    }
    if y.faults.is_rival() {
        return by_count(x, y, n);
    }
    Ok(Chosen::ahead(x))
}

// One step of a walk through list k.
fn step<E: Form>(s: &Store<E>, k: u16, t: Trail) -> Trail
    requires { (k < s.now.layout.lists) × (is_open s.now.layout t ≡ true) }
    ensures { result ≡ next_trail k (cell_in (view_of s.now.layout (E.words_in s.now.lent.now)) t.at) t }
{
    t.step(k, s.node(t.at))
}

// Step after step: a walk through list k.
fn rest<E: Form>(s: &Store<E>, k: u16, t: Trail) -> Walk
    requires { (k < s.now.layout.lists) × Trailing s.now.layout (view_of s.now.layout (E.words_in s.now.lent.now)) k t }
    ensures { result ≡ way_of s.now.layout (view_of s.now.layout (E.words_in s.now.lent.now)) t.back k }
{
    let mut t = t;
    while t.open(s.layout, s.grid) {
        t = step(s, k, t);
    }
    t.end(s.layout, k, s.header(k))
}

// The walks through lists k and j, each by its back links or its forward links.
fn walk_two<E: Form>(s: &Store<E>, k: u16, back: bool, j: u16, other: bool) -> (Walk, Walk)
    requires { (k < s.now.layout.lists) × (j < s.now.layout.lists) }
    ensures { (result.0 ≡ way_of s.now.layout (view_of s.now.layout (E.words_in s.now.lent.now)) back k) × (result.1 ≡ way_of s.now.layout (view_of s.now.layout (E.words_in s.now.lent.now)) other j) }
{
    let mut t = Trail::first(s.layout, back, k, s.header(k));
    let mut u = Trail::first(s.layout, other, j, s.header(j));
    while t.open(s.layout, s.grid) && u.open(s.layout, s.grid) {
        t = step(s, k, t);
        u = step(s, j, u);
    }
    (rest(s, k, t), rest(s, j, u))
}

// What is chosen for list k: both walks at once.
fn fit_one<E: Form>(s: &Store<E>, k: u16) -> Result<Chosen, Refusal>
    requires { k < s.now.layout.lists }
    ensures { result ≡ fit_in s.now.layout (view_of s.now.layout (E.words_in s.now.lent.now)) k (count_in s.now.layout (E.words_in s.now.lent.now) k) }
{
    let n = s.count(k);
    if s.one_holds(k) {
        return Ok(Chosen::ahead(Walk::right(n)));
    }
    let (x, y) = walk_two(s, k, false, k, true);
    choice(x, y, n)
}

// What is chosen for lists k and j, which may be the same.
pub fn fit_two<E: Form>(s: &Store<E>, k: u16, j: u16) -> Fits
    requires { (k < s.now.layout.lists) × (j < s.now.layout.lists) }
    ensures { (result.first ≡ fit_in s.now.layout (view_of s.now.layout (E.words_in s.now.lent.now)) k (count_in s.now.layout (E.words_in s.now.lent.now) k)) × (result.second ≡ fit_in s.now.layout (view_of s.now.layout (E.words_in s.now.lent.now)) j (count_in s.now.layout (E.words_in s.now.lent.now) j)) }
{
    if k == j {
        let fit = fit_one(s, k);
        return Fits {
            first: fit,
            second: fit,
        };
    }
    let m = s.count(k);
    let n = s.count(j);
    if s.two_hold(k, j) {
        return Fits {
            first: Ok(Chosen::ahead(Walk::right(m))),
            second: Ok(Chosen::ahead(Walk::right(n))),
        };
    }
    let (x, y) = walk_two(s, k, false, j, false);
    if x.decides() && y.decides() {
        return Fits {
            first: Ok(Chosen::ahead(x)),
            second: Ok(Chosen::ahead(y)),
        };
    }
    let (z, w) = walk_two(s, k, true, j, true);
    Fits {
        first: choice(x, z, m),
        second: choice(y, w, n),
    }
}
