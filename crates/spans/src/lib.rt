// A row's span lies in its parent's; no code.
#![tactic(auto)]
