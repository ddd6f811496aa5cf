// The order of checks in words: of each call, the refusal that is told is the first of document 01's list that applies. Definitions and theorems only.
#![tactic(auto)]
