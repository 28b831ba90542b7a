// The answers of (a) and (b) over the bytes of a source; no code.
#![tactic(auto)]
