// A print, read again, is the same tree; no code.
#![tactic(auto)]
