// Word stores in what is lent, under an allowance: the first of them are made, up to it, so what a cut leaves is what a smaller allowance
// leaves.
#![tactic(auto)]

ghost use Rattle.std.specs.Prelude.{◌≡◌, ◌+◌, ◌<◌, ◌≤◌, [], ◌∷◌, length, take, get_or};
ghost use Rattle.stores.specs.Stores.{write, outcome_of, in_row, Inside};

use form::Form;
use stores::{Outcome, Write};

// Makes store i of the list, and nothing else.
fn step<E: Form>(lent: &mut [E], writes: &[Write], i: usize)
    requires inside { Inside (length (E.words_in lent.old)) writes.now }
    requires some { i < length writes.now }
    ensures { lent.new ≡ E.after (get_or writes.now i (write 0 0) ∷ []) lent.old }
{
    let store = writes[i];
    E::put(lent, usize::from(store.at), store.value);
}

// Makes the stores, up to the allowance: one step after the other.
pub fn run<E: Form>(lent: &mut [E], writes: &[Write], allowance: u16) -> Outcome
    requires inside { Inside (length (E.words_in lent.old)) writes.now }
    requires few { length writes.now < 65536 }
    ensures outcome { result ≡ outcome_of writes.now allowance }
    ensures lent { lent.new ≡ E.after (take allowance writes.now) lent.old }
{
    let whole = writes.len() as u16;
    for i in 0..whole {
        if i == allowance {
            return Outcome::Stopped(i);
        }
        step(lent, writes, usize::from(i));
    }
    Outcome::Done(whole)
}

// Stores the words of the values, which may be lent in another form, in a row from word a on, up to the allowance.
pub fn put_row<E: Form, F: Form>(lent: &mut [E], a: usize, values: &[F], allowance: u16) -> Outcome
    requires inside { a + length (F.words_in values.now) ≤ length (E.words_in lent.old) }
    requires few { length (F.words_in values.now) < 65536 }
    ensures outcome { result ≡ outcome_of (in_row a (F.words_in values.now)) allowance }
    ensures lent { lent.new ≡ E.after (take allowance (in_row a (F.words_in values.now))) lent.old }
{
    let whole = F::size(values) as u16;
    for n in 0..whole {
        if n == allowance {
            return Outcome::Stopped(n);
        }
        E::put(lent, a + usize::from(n), F::word(values, usize::from(n)));
    }
    Outcome::Done(whole)
}
