// The pairs of parentheses of a print are exactly those needed: definitions and laws, no code.
#![tactic(auto)]
