// What the calls answer, and, in specs/, what each call asks, answers and stores: docs/FORMAT.md in definitions. No call is made here. Those on
// what is lent (crate engine) are proved to answer and to leave what these definitions say.
#![tactic(auto)]

ghost use Rattle.std.specs.Prelude.{◌≡◌};
ghost use Rattle.calls.specs.Answers.{refusal_number, counted_length, answer_stores, foretold_first, foretold_last, foretold_stores, needed_stores};

use layout::Refusal;
use stores::Outcome;

// The answer of a call that stores: how its stores ended, or why it makes none.
pub type Answer = Result<Outcome, Refusal>;

// What an insert of several records will do, told before its first store: the first and the last cell that it uses, in order of use, and how
// many stores it makes.
#[derive(Clone, Copy, Debug, Default, PartialEq, Eq)]
pub struct Figures {
    pub first: u16,
    pub last: u16,
    pub stores: u16,
}

// The number of an answer's refusal, 0 for none.
pub fn number<T>(answer: &Result<T, Refusal>) -> u16
    ensures { result ≡ refusal_number answer.now }
{
    match answer {
        Ok(_) => 0,
        Err(refusal) => refusal.number(),
    }
}

// The number of stores made, 0 if refused.
pub fn stores(answer: Answer) -> u16
    ensures { result ≡ answer_stores answer }
{
    match answer {
        Ok(outcome) => outcome.stores(),
        Err(_) => 0,
    }
}

// The length of a list, or the number of stores that a recovery will make, told before the first of them: 0 if refused.
pub fn told(answer: Result<u16, Refusal>) -> u16
    ensures length { result ≡ counted_length answer }
    ensures stores { result ≡ needed_stores answer }
{
    answer.unwrap_or(0)
}

// What is told of an insert of several records, each 0 if refused.
pub fn foretold(answer: Result<Figures, Refusal>) -> Figures
    ensures first { result.first ≡ foretold_first answer }
    ensures last { result.last ≡ foretold_last answer }
    ensures stores { result.stores ≡ foretold_stores answer }
{
    answer.unwrap_or_default()
}
