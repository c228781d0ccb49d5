// Two pieces of line over whole numbers, and the places that they share. Definitions and laws; no function.
#![tactic(auto)]
