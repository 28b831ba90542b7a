// A token's bytes in another source are that token there; no code.
#![tactic(auto)]
