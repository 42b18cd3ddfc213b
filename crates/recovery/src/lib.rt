// No function: when a sequence fits a list, and what recovery stores.
#![tactic(auto)]
