// No function: demand 3 for the calls from C.
#![tactic(auto)]
