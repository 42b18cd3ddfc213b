// No function: the lists of a store, soundness, and the theorems about them.
#![tactic(auto)]
