// Free nodes wiped. A node's record words are asked together whether all are 0; only where they are not, each that is not is stored to.
#![tactic(auto)]

ghost use Rattle.std.specs.Prelude.{◌≡◌, ◌+◌, ◌≤◌, length, replicate, take};
ghost use Rattle.calls.specs.Answers.{answer_stores};
ghost use Rattle.stores.specs.Stores.{in_row, outcome_of, made_in};
ghost use Rattle.layout.specs.Words.{Laid, Node};
ghost use Rattle.layout.specs.Cells.{Gridded};
ghost use Rattle.recovery.specs.Fits.{wrong};
ghost use Rattle.mending.specs.Mending.{wipes_of, wipes, outcome_on, made_on};
ghost use Rattle.wipes.specs.Following.{answer_on, lent_on};

use calls::Answer;
use form::Form;
use layout::{Grid, Layout};
use stores::Outcome;

// Stores 0 to each of the n words from a on that is not 0, lowest word first, up to the allowance.
fn wipe_row<E: Form>(lent: &mut [E], a: usize, n: u16, allowance: u16) -> Outcome
    requires { a + n ≤ length (E.words_in lent.old) }
    ensures outcome { result ≡ outcome_of (wrong (E.words_in lent.old) (in_row a (replicate n 0))) allowance }
    ensures lent { lent.new ≡ E.after (take allowance (wrong (E.words_in lent.old) (in_row a (replicate n 0)))) lent.old }
{
    let mut made: u16 = 0;
    for b in a..a + usize::from(n) {
        if E::word(lent, b) != 0 {
            if made == allowance {
                return Outcome::Stopped(made);
            }
            E::put(lent, b, 0);
            made += 1;
        }
    }
    Outcome::Done(made)
}

// Wipes node c if it is free, up to the allowance.
fn wipe_node<E: Form>(lent: &mut [E], l: Layout, g: Grid, c: usize, allowance: u16) -> Outcome
    requires { Gridded l g × Laid l (E.words_in lent.old) × Node l c }
    ensures outcome { result ≡ outcome_of (wipes_of l (E.words_in lent.old) c) allowance }
    ensures lent { lent.new ≡ E.after (take allowance (wipes_of l (E.words_in lent.old) c)) lent.old }
{
    let place = g.place(l, c);
    if !Layout::is_free(E::word(lent, place)) {
        return Outcome::Done(0);
    }
    let a = place + Layout::LINK_WORDS;
    let n = g.tail(l);
    if walks::blank(lent, a, n) {
        return Outcome::Done(0);
    }
    wipe_row(lent, a, n, allowance)
}

// Wipes each free node, lowest word first, up to the allowance.
fn wipe<E: Form>(lent: &mut [E], l: Layout, g: Grid, allowance: u16) -> Outcome
    requires { Gridded l g × Laid l (E.words_in lent.old) }
    ensures outcome { result ≡ outcome_of (wipes l (E.words_in lent.old)) allowance }
    ensures lent { lent.new ≡ E.after (take allowance (wipes l (E.words_in lent.old))) lent.old }
{
    let mut made: u16 = 0;
    for c in g.from..g.to {
        let Outcome::Done(n) = wipe_node(lent, l, g, c, allowance - made) else {
            return Outcome::Stopped(allowance);
        };
        made += n;
    }
    Outcome::Done(made)
}

// Makes the wipes after other stores, if all of these were made: `before` is their outcome.
pub fn follow<E: Form>(
    lent: &mut [E],
    l: Layout,
    g: Grid,
    before: Outcome,
    allowance: u16,
) -> Outcome
    requires { Gridded l g × Laid l (E.words_in lent.old) × (made_in before ≤ allowance) }
    ensures outcome { result ≡ outcome_on before (wipes l (E.words_in lent.old)) allowance }
    ensures lent { lent.new ≡ E.after (made_on before (wipes l (E.words_in lent.old)) allowance) lent.old }
{
    let Outcome::Done(n) = before else {
        return before;
    };
    let Outcome::Done(m) = wipe(lent, l, g, allowance - n) else {
        return Outcome::Stopped(allowance);
    };
    Outcome::Done(n + m)
}

// Goes on with the wipes where a call made stores before, if all of them were made: `before` is its answer, and a refusal is handed on.
pub fn go_on<E: Form>(lent: &mut [E], l: Layout, g: Grid, before: Answer, allowance: u16) -> Answer
    requires { Gridded l g × Laid l (E.words_in lent.old) × (answer_stores before ≤ allowance) }
    ensures answer { result ≡ answer_on before (wipes l (E.words_in lent.old)) allowance }
    ensures lent { lent.new ≡ lent_on E.after before (wipes l (E.words_in lent.old)) allowance lent.old }
{
    Ok(follow(lent, l, g, before?, allowance))
}
