// A call that changes a store is decided whole before its first store: what it comes to is a refusal or a list of word stores, and what a cut
// leaves is what the first of them leave (specs/Stores.antt).
#![tactic(auto)]

ghost use Rattle.std.specs.Prelude.{◌≡◌};
ghost use Rattle.stores.specs.Stores.{outcome_at, made_in};

// A word store: word `at` becomes `value`.
#[derive(Clone, Copy, Debug, Default, PartialEq, Eq)]
pub struct Write {
    pub at: u16,
    pub value: u16,
}

// How a run of stores ended, with the number of stores made: all of them, or as many as the allowance let through. (No Result: who is
// stopped in a part answers with the number of the whole, so `?` would hand on a wrong one.)
#[derive(Clone, Copy, Debug, PartialEq, Eq)]
pub enum Outcome {
    Done(u16),
    Stopped(u16),
}

impl Outcome {
    // The outcome of so many stores under an allowance.
    pub fn of(whole: u16, allowance: u16) -> Outcome
        ensures { result ≡ outcome_at whole allowance }
    {
        if allowance < whole {
            Outcome::Stopped(allowance)
        } else {
            Outcome::Done(whole)
        }
    }

    // The number of stores made.
    pub fn stores(self) -> u16
        ensures { result ≡ made_in self }
    {
        match self {
            Outcome::Done(n) => n,
            Outcome::Stopped(n) => n,
        }
    }
}
