// No function: what was asked of the walk to a position, as a type about the calls, and its theorem.
#![tactic(auto)]
