// What the answers mean to a reader: laws of what the public calls promise. No function.
#![tactic(auto)]
