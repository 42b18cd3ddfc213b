// No function: what is so of worn nodes.
#![tactic(auto)]
