// What stays read when bytes of a source are replaced by spaces; no code.
#![tactic(auto)]
