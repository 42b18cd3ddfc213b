// No function: demands 1 and 2 as types, and their theorems.
#![tactic(auto)]
