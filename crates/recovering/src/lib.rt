// Recovery of a store in either form, decided in what is lent: each list is walked there, and the mends are kept. Only if a node in no list
// may be in use by its identifier, the identifiers are read into a column and the members erased there. The wipes need no column: once the
// mends and the clears are made, the nodes to be wiped are the free ones. What is found also tells, without a store, how many there will be.
#![tactic(auto)]

ghost use Rattle.std.specs.Prelude.{◌≡◌, ◌++◌, ◌≤◌, Ok, length, take};
ghost use Rattle.calls.specs.Answers.{answer_of, needed_of};
ghost use Rattle.stores.specs.Stores.{run, stores, outcome_of, left_by, Inside};
ghost use Rattle.layout.specs.Words.{Laid, size_of};
ghost use Rattle.lists.specs.Decide.{view_of, count_in};
ghost use Rattle.recovery.specs.Plan.{recover_of};
ghost use Rattle.mending.specs.Mending.{clears, wipes, Mended, FoundOf};

use calls::Answer;
use form::Form;
use layout::{Grid, Layout, Refusal};
use mending::{Found, Mends};
use stores::{Outcome, Write};
use walks::Store;

// What is found of the store, or the first list that is refused. The nodes are tallied first: that fetches what is lent in order.
fn decide<E: Form>(s: &Store<E>) -> Result<Found, Refusal>
    ensures { FoundOf s.now.layout (E.words_in s.now.lent.now) result }
{
    let t = s.tally();
    let mends = mends::all_mends(s)?;
    let left = !mends.none_left(t.used);
    Ok(Found {
        mends,
        left,
        unwiped: t.unwiped != 0,
    })
}

// Makes the mends and then the clears, up to the allowance.
fn make<E: Form>(
    lent: &mut [E],
    mends: &[Write],
    idents: &[u16; Layout::MAX_CELLS],
    l: Layout,
    allowance: u16,
) -> Outcome
    requires laid { Laid l (E.words_in lent.old) }
    requires inside { Inside (size_of l) mends.now }
    requires few { length mends.now ≤ 16 }
    ensures outcome { result ≡ outcome_of (mends.now ++ clears l idents.now) allowance }
    ensures lent { lent.new ≡ E.after (take allowance (mends.now ++ clears l idents.now)) lent.old }
{
    let Outcome::Done(n) = runs::run(lent, mends, allowance) else {
        return Outcome::Stopped(allowance);
    };
    let Outcome::Done(m) = clears::clear(lent, idents, l, allowance - n) else {
        return Outcome::Stopped(allowance);
    };
    Outcome::Done(n + m)
}

// Recovers a store where a node in no list may be in use by its identifier: the mends, the clears, and then the wipes.
fn recover_left<E: Form>(lent: &mut [E], l: Layout, mends: &Mends, allowance: u16) -> Outcome
    requires { Laid l (E.words_in lent.old) × Mended l (view_of l (E.words_in lent.old)) (count_in l (E.words_in lent.old)) mends.now }
    ensures outcome { Ok result ≡ answer_of (recover_of l (E.words_in lent.old)) allowance }
    ensures lent { lent.new ≡ left_by E.after (recover_of l (E.words_in lent.old)) allowance lent.old }
{
    let mut idents = mending::column();
    let s = Store::of(&*lent, l);
    clears::read_nodes(&mut idents, &s);
    clears::erase_all(&mut idents, &s, &mends.back);
    let made = make(lent, mends.writes.as_slice(), &idents, l, allowance);
    wipes::follow(lent, l, Grid::of(l), made, allowance)
}

// Recovers a store where none is: the mends, and then the wipes.
fn recover_none_left<E: Form>(lent: &mut [E], l: Layout, mends: &[Write], allowance: u16) -> Outcome
    requires laid { Laid l (E.words_in lent.old) }
    requires inside { Inside (size_of l) mends.now }
    requires few { length mends.now ≤ 16 }
    ensures outcome { result ≡ outcome_of (mends.now ++ wipes l (run mends.now (E.words_in lent.old))) allowance }
    ensures lent { lent.new ≡ E.after (take allowance (mends.now ++ wipes l (run mends.now (E.words_in lent.old)))) lent.old }
{
    let made = runs::run(lent, mends, allowance);
    wipes::follow(lent, l, Grid::of(l), made, allowance)
}

// Recovers a store of this layout. Only where a node in no list may be in use is a column made.
pub fn recover_in<E: Form>(lent: &mut [E], l: Layout, allowance: u16) -> Answer
    requires { Laid l (E.words_in lent.old) }
    ensures answer { result ≡ answer_of (recover_of l (E.words_in lent.old)) allowance }
    ensures lent { lent.new ≡ left_by E.after (recover_of l (E.words_in lent.old)) allowance lent.old }
{
    let store = Store::of(&*lent, l);
    let found = decide(&store)?;
    if found.left {
        return Ok(recover_left(lent, l, &found.mends, allowance));
    }
    if found.unwiped {
        return Ok(recover_none_left(lent, l, found.mends.writes.as_slice(), allowance));
    }
    Ok(runs::run(lent, found.mends.writes.as_slice(), allowance))
}

// How many stores recovery will make of a store where a node in no list may be in use by its identifier.
fn stores_left<E: Form>(s: &Store<E>, mends: &Mends) -> u16
    requires { Mended s.now.layout (view_of s.now.layout (E.words_in s.now.lent.now)) (count_in s.now.layout (E.words_in s.now.lent.now)) mends.now }
    ensures { Ok result ≡ needed_of (recover_of s.now.layout (E.words_in s.now.lent.now)) }
{
    let mut idents = mending::column();
    clears::read_nodes(&mut idents, s);
    clears::erase_all(&mut idents, s, &mends.back);
    mends.writes.len() as u16 + counts::outside_stores(s, &idents)
}

// How many stores recovery of a store will make.
pub fn stores_in<E: Form>(s: &Store<E>) -> Result<u16, Refusal>
    ensures { result ≡ needed_of (recover_of s.now.layout (E.words_in s.now.lent.now)) }
{
    let found = match decide(s) {
        Ok(found) => found,
        Err(refusal) => return Err(refusal),
    };
    if found.left {
        return Ok(stores_left(s, &found.mends));
    }
    let mends = found.mends.writes.len() as u16;
    if !found.unwiped {
        return Ok(mends);
    }
    Ok(mends + counts::free_wipes(s))
}
