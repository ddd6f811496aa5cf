// Demand 2 for the list: what it holds, in document 01's words. Definitions and theorems only.
#![tactic(auto)]
