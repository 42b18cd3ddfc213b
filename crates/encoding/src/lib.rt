// How a store's words are lent: as they are, or as bytes. Definitions and laws; crate form has the code.
#![tactic(auto)]
