// No function: what is told of a call before its first store is what the call does.
#![tactic(auto)]
