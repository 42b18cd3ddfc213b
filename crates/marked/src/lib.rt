// No function: the marked store's rows C1 to C10 as one table, and one theorem that covers them.
#![tactic(auto)]
