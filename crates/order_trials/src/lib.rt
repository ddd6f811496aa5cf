// What trying an order of a trace's events says of it. Definitions and theorems only.
#![tactic(auto)]
