// No function: sequences of cells, and what is proved of them for any links.
#![tactic(auto)]
