// What an order of events does to the tables of all switches. Definitions and theorems only.
#![tactic(auto)]
