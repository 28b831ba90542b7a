// Which prints pass no limit; no code.
#![tactic(auto)]
