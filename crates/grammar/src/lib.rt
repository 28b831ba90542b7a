// The grammar's definitions and theorems; no code.
#![tactic(auto)]
