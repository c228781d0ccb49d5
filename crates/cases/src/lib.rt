// The cases marked * in docs/RULES.md, as one statement that computes the rules. This crate has definitions and a proof only.
#![tactic(auto)]
