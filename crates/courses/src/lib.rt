// A course of calls: a sound store, one cut insert or delete, altered words, and recoveries.
#![tactic(auto)]

ghost use Rattle.std.specs.Prelude.{◌≡◌, [], ◌∷◌, ◌++◌};
ghost use Rattle.calls.specs.Answers.{answer_of};
ghost use Rattle.recovery.specs.Plan.{recover_plan};
ghost use Rattle.courses.specs.Course.{words_through};
ghost use Rattle.courses.specs.Demand3.{Demanded};

use calls::Answer;

// Recovers with each of the allowances, one after another, and last with one more. Its clause course is demand 3: if the words lent
// are a found store and the last allowance is enough, the course ends as it must, and the last recovery makes all stores it needs.
pub fn recover_each(words: &mut [u16], allowances: &[u16], last: u16) -> Answer
    ensures answer { result ≡ answer_of (recover_plan (words_through allowances.now words.old)) last }
    ensures words { words.new ≡ words_through (allowances.now ++ last ∷ []) words.old }
    ensures course { Demanded words.old allowances.now last words.new result }
{
    let mut i: usize = 0;
    while i < allowances.len() {
        let _ = axle_store::recover(words, allowances[i]);
        i += 1;
    }
    axle_store::recover(words, last)
}
