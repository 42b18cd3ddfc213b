// Questions 1 to 10 and 13, put to what is lent, in either form. A position is found by links, from the nearer end of its list; a free cell by
// a search of the identifiers. Nothing is copied.
#![tactic(auto)]

ghost use Rattle.std.specs.Prelude.{◌≡◌, ℕ, ◌≤◌, length, Err};
ghost use Rattle.layout.specs.Words.{head_words, ask, Node, opened_by, opened, worn_ident};
ghost use Rattle.layout.specs.declared.Refusal.TheVariants.{Size};
ghost use Rattle.lists.specs.Decide.{view_of, sequence_of, HeldList};
ghost use Rattle.requests.specs.Requests.{around, nth, free_cells, member_at, free_gap, gap_at, gaps_at, ends_at, mark_at, site_of, look_of, FoundUnworn, EndsUnworn, SitedUnworn, LookedUnworn};
ghost use Rattle.requests.specs.Sites.{gap_site, next_site};

use form::Form;
use layout::{Layout, Refusal};
use requests::{Ends, Look, Request, Site};
use walks::Store;

// The first eight words.
fn head<E: Form>(lent: &[E]) -> [u16; Layout::HEAD_WORDS]
    requires { head_words ≤ length (E.words_in lent.now) }
    ensures { (head_words ≡ length result) × ((n : ℕ) → opened_by n result ≡ opened_by n (E.words_in lent.now)) }
{
    [
        E::word(lent, 0),
        E::word(lent, 1),
        E::word(lent, 2),
        E::word(lent, Layout::VERSION_AT),
        E::word(lent, Layout::LISTS_AT),
        E::word(lent, Layout::NODES_AT),
        E::word(lent, Layout::WIDTH_AT),
        E::word(lent, Layout::SPARE_AT),
    ]
}

// Is what is lent whole words? Then questions 1 to 4.
pub fn open<E: Form>(lent: &[E]) -> Result<Layout, Refusal>
    ensures { result ≡ ask (E.whole lent.now) (Err Size) (opened (E.words_in lent.now)) }
{
    if !E::is_whole(lent) {
        return Err(Refusal::Size);
    }
    let n = E::size(lent);
    if n < Layout::HEAD_WORDS {
        return Err(Refusal::Short);
    }
    layout::open_with(n, &head(lent))
}

// The member of list k, which has n members, at position p.
fn member<E: Form>(s: &Store<E>, k: u16, n: u16, p: u16) -> Result<Site, Refusal>
    requires { HeldList s.now.layout (view_of s.now.layout (E.words_in s.now.lent.now)) k n }
    ensures { result ≡ member_at k p (sequence_of s.now.layout (E.words_in s.now.lent.now) k) }
{
    if n <= p {
        return Err(Refusal::NoPosition);
    }
    let c = seeks::arrive(s, k, n, p + 1);
    let m = s.node(c);
    Ok(Site {
        before: m.back as u16,
        cell: c as u16,
        after: m.forward as u16,
        count: n,
    })
}

// The free node at place i, counted from 0, of those from the starting cell on, and on from the first node after the last. Worn nodes are
// passed over.
fn free_cell<E: Form>(s: &Store<E>, start: u16, i: usize) -> Option<u16>
    requires { Node s.now.layout start }
    ensures found { result ≡ nth (free_cells (view_of s.now.layout (E.words_in s.now.lent.now)).ident (around s.now.layout start s.now.layout.nodes)) i }
    ensures worn { FoundUnworn (view_of s.now.layout (E.words_in s.now.lent.now)).ident result }
{
    let mut c = start;
    let mut before = i;
    for _ in 0..s.layout.nodes {
        if Layout::is_free(s.node(usize::from(c)).ident) {
            if before == 0 {
                return Some(c);
            }
            before -= 1;
        }
        c = requests::next_cell(s.layout, c);
    }
    None
}

// The gap of list k, which has n members, at position p, for a cell.
fn gap_site<E: Form>(s: &Store<E>, k: u16, n: u16, p: u16, cell: u16) -> Site
    requires held { HeldList s.now.layout (view_of s.now.layout (E.words_in s.now.lent.now)) k n }
    requires position { p ≤ n }
    ensures { result ≡ gap_site k p cell (sequence_of s.now.layout (E.words_in s.now.lent.now) k) }
{
    let before = seeks::arrive(s, k, n, p);
    Site {
        before: before as u16,
        cell,
        after: s.cell(before).forward as u16,
        count: n,
    }
}

// Question 10: the gap of list k, which has n members, at position p, and a free cell.
fn free_gap<E: Form>(s: &Store<E>, k: u16, n: u16, p: u16, start: u16) -> Result<Site, Refusal>
    requires held { HeldList s.now.layout (view_of s.now.layout (E.words_in s.now.lent.now)) k n }
    requires position { p ≤ n }
    requires start { Node s.now.layout start }
    ensures site { result ≡ free_gap s.now.layout (view_of s.now.layout (E.words_in s.now.lent.now)).ident k p start (sequence_of s.now.layout (E.words_in s.now.lent.now) k) }
    ensures worn { SitedUnworn (view_of s.now.layout (E.words_in s.now.lent.now)).ident result }
{
    let cell = free_cell(s, start, 0).ok_or(Refusal::Full)?;
    Ok(gap_site(s, k, n, p, cell))
}

// The gap of list k, which has n members, at position p, and a free cell for a record of so many words.
fn gap<E: Form>(
    s: &Store<E>,
    k: u16,
    n: u16,
    p: u16,
    start: u16,
    size: usize,
) -> Result<Site, Refusal>
    requires { HeldList s.now.layout (view_of s.now.layout (E.words_in s.now.lent.now)) k n }
    ensures site { result ≡ gap_at s.now.layout (view_of s.now.layout (E.words_in s.now.lent.now)).ident k p start size (sequence_of s.now.layout (E.words_in s.now.lent.now) k) }
    ensures worn { SitedUnworn (view_of s.now.layout (E.words_in s.now.lent.now)).ident result }
{
    requests::gap_asked(s.layout, n, p, start, size)?;
    free_gap(s, k, n, p, start)
}

// Questions 7 to 10 of several records, of so many words in all, and the first and the last of the free cells that they get. The search for
// the last goes on from the first, so both are one turn.
pub fn ends<E: Form>(s: &Store<E>, n: u16, p: u16, start: u16, size: usize) -> Result<Ends, Refusal>
    ensures cells { result ≡ ends_at s.now.layout (view_of s.now.layout (E.words_in s.now.lent.now)).ident n p start size }
    ensures worn { EndsUnworn (view_of s.now.layout (E.words_in s.now.lent.now)).ident result }
{
    requests::gaps_asked(s.layout, n, p, start, size)?;
    let records = size / usize::from(s.layout.width);
    let first = free_cell(s, start, 0).ok_or(Refusal::Full)?;
    let last = free_cell(s, first, records - 1).ok_or(Refusal::Full)?;
    Ok(Ends { first, last })
}

// The gap of list k, which has n members, at position p, and free cells for several records, of so many words in all.
fn gaps<E: Form>(
    s: &Store<E>,
    k: u16,
    n: u16,
    p: u16,
    start: u16,
    size: usize,
) -> Result<Site, Refusal>
    requires { HeldList s.now.layout (view_of s.now.layout (E.words_in s.now.lent.now)) k n }
    ensures site { result ≡ gaps_at s.now.layout (view_of s.now.layout (E.words_in s.now.lent.now)).ident k p start size (sequence_of s.now.layout (E.words_in s.now.lent.now) k) }
    ensures worn { SitedUnworn (view_of s.now.layout (E.words_in s.now.lent.now)).ident result }
{
    let cells = ends(s, n, p, start, size)?;
    Ok(gap_site(s, k, n, p, cells.first))
}

// The site of the next of several records, behind the one just inserted at site t. The search goes on behind the cell just used, so all
// searches together are one turn.
pub fn next_site<E: Form>(s: &Store<E>, t: Site) -> Site
    requires cell { Node s.now.layout t.cell }
    requires count { t.count ≤ s.now.layout.nodes }
    ensures site { result ≡ next_site s.now.layout (view_of s.now.layout (E.words_in s.now.lent.now)).ident t }
    ensures worn { ((view_of s.now.layout (E.words_in s.now.lent.now)).ident t.cell ≡ worn_ident → ⊥) → (view_of s.now.layout (E.words_in s.now.lent.now)).ident result.cell ≡ worn_ident → ⊥ }
{
    match free_cell(s, requests::next_cell(s.layout, t.cell), 0) {
        None => t,
        Some(cell) => Site {
            before: t.cell,
            cell,
            after: t.after,
            count: t.count + 1,
        },
    }
}

// The node to mark: is it one, and free?
fn mark<E: Form>(s: &Store<E>, cell: u16) -> Result<Site, Refusal>
    ensures { result ≡ mark_at s.now.layout (view_of s.now.layout (E.words_in s.now.lent.now)).ident cell }
{
    if !s.layout.is_node(cell) {
        return Err(Refusal::NoNode);
    }
    if !Layout::is_free(s.node(usize::from(cell)).ident) {
        return Err(Refusal::NotFree);
    }
    Ok(Site {
        before: 0,
        cell,
        after: 0,
        count: 0,
    })
}

// The site that a request gets.
fn site_of<E: Form>(s: &Store<E>, q: Request) -> Result<Site, Refusal>
    ensures site { result ≡ site_of s.now.layout (E.words_in s.now.lent.now) q }
    ensures worn { SitedUnworn (view_of s.now.layout (E.words_in s.now.lent.now)).ident result }
{
    let list = requests::list_of(q);
    if s.layout.lists <= list {
        return Err(Refusal::NoList);
    }
    if !s.is_sound() {
        return Err(Refusal::Unsound);
    }
    let n = s.count(list);
    match q {
        Request::Check => Ok(Site {
            before: 0,
            cell: 0,
            after: 0,
            count: 0,
        }),
        Request::Whole(k) => Ok(Site {
            before: k,
            cell: k,
            after: k,
            count: n,
        }),
        Request::Member(k, p) => member(s, k, n, p),
        Request::Gap(k, p, start, size) => gap(s, k, n, p, start, size),
        Request::Gaps(k, p, start, size) => gaps(s, k, n, p, start, size),
        Request::Mark(cell) => mark(s, cell),
    }
}

// All questions of a call.
pub fn look<E: Form>(lent: &[E], q: Request) -> Result<Look, Refusal>
    ensures outcome { result ≡ ask (E.whole lent.now) (Err Size) (look_of (E.words_in lent.now) q) }
    ensures worn { LookedUnworn (E.words_in lent.now) result }
{
    let layout = open(lent)?;
    let site = site_of(&Store::of(lent, layout), q)?;
    Ok(Look { layout, site })
}
