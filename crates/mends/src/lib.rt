// What is wrong with the lists of a store, in either form: each list is walked in what is lent, and the stores that mend its wrong word and
// its count are kept.
#![tactic(auto)]

ghost use Rattle.std.specs.Prelude.{◌≡◌, ◌+◌, ◌<◌, ◌++◌, length, None, IfSome, IsSome, option_to_list};
ghost use Rattle.lists.specs.Decide.{view_of, count_in};
ghost use Rattle.fitting.specs.Fitting.{fit_in, carries, FaultFits};
ghost use Rattle.mending.specs.Mending.{writes_in, MendsOf};

use fitting::{Chosen, Faults};
use form::Form;
use layout::{Layout, Refusal};
use mending::{MendList, Mends};
use stores::Write;
use walks::Store;

// Is the wrong word no identifier, or one that says in use?
fn carried<E: Form>(s: &Store<E>, f: Faults) -> bool
    requires { FaultFits s.now.layout f }
    ensures { result ≡ carries (view_of s.now.layout (E.words_in s.now.lent.now)).ident f }
{
    match f {
        Faults::None => true,
        Faults::One(c, w, _) => {
            if usize::from(w) != Layout::IDENTIFIER {
                return true;
            }
            Layout::in_use(s.cell(usize::from(c)).ident)
        }
        Faults::Many => true,
    }
}

// What is chosen for list k, and for the list behind it where that is not asked yet: two lists are walked in one loop, so what is chosen for
// every other list is known already.
fn fit_next<E: Form>(
    s: &Store<E>,
    k: u16,
    known: Option<Result<Chosen, Refusal>>,
) -> (Result<Chosen, Refusal>, Option<Result<Chosen, Refusal>>)
    requires { (k < s.now.layout.lists) × IfSome known (λ f. f ≡ fit_in s.now.layout (view_of s.now.layout (E.words_in s.now.lent.now)) k (count_in s.now.layout (E.words_in s.now.lent.now) k)) }
    ensures first { result.0 ≡ fit_in s.now.layout (view_of s.now.layout (E.words_in s.now.lent.now)) k (count_in s.now.layout (E.words_in s.now.lent.now) k) }
    ensures second { k + 1 < s.now.layout.lists → IfSome result.1 (λ f. f ≡ fit_in s.now.layout (view_of s.now.layout (E.words_in s.now.lent.now)) (k + 1) (count_in s.now.layout (E.words_in s.now.lent.now) (k + 1))) }
    ensures both { known ≡ None → IsSome result.1 }
{
    if let Some(fit) = known {
        return (fit, None);
    }
    let fits = fitting::fit_two(s, k, mending::beside(s.layout, k));
    (fits.first, Some(fits.second))
}

// Keeps a mend, if there is one.
fn keep(writes: &mut MendList, mend: Option<Write>)
    requires { length (writes_in writes.old) < 16 }
    ensures { writes_in writes.new ≡ writes_in writes.old ++ option_to_list mend }
{
    if let Some(write) = mend {
        writes.push(write);
    }
}

// The mends of all lists, from list 0 on, or the first list that is refused.
pub fn all_mends<E: Form>(s: &Store<E>) -> Result<Mends, Refusal>
    ensures { MendsOf s.now.layout (view_of s.now.layout (E.words_in s.now.lent.now)) (count_in s.now.layout (E.words_in s.now.lent.now)) result }
{
    let mut writes = MendList::none();
    let mut back = [false; Layout::MAX_LISTS];
    let mut members: u32 = 0;
    let mut whole = true;
    let mut known: Option<Result<Chosen, Refusal>> = None;
    for k in 0..s.layout.lists {
        let (fit, next) = fit_next(s, k, known);
        let chosen = fit?;
        let walk = chosen.walk;
        members += u32::from(walk.members);
        whole &= carried(s, walk.faults);
        back[usize::from(k)] = chosen.backward;
        keep(&mut writes, mending::mend_of(s.layout, walk.faults));
        keep(
            &mut writes,
            mending::count_mend(s.layout, k, s.count(k), walk.members),
        );
        known = next;
    }
    Ok(Mends {
        writes,
        back,
        members,
        carried: whole,
    })
}
