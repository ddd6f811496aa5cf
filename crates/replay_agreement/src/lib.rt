// Demand 3: replays in allowed orders agree. Definitions and theorems only.
#![tactic(auto)]
