// No function: what is so of records that are wiped.
#![tactic(auto)]
