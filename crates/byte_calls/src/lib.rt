// No function: the calls on lent bytes and the calls from C, what each answers, plans and leaves.
#![tactic(auto)]
