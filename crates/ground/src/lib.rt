// The rules over whole numbers: points, sides, edges, the zone; points with heights. Definitions and laws; no function.
#![tactic(auto)]
