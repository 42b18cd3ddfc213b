// No function: how far check and recovery can be trusted where words were altered.
#![tactic(auto)]
