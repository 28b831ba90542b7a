// The trees that a reading leaves, and where parentheses stand in it: definitions and laws, no code.
#![tactic(auto)]
