// What an order of events leaves of the rows, and its answers. Definitions and theorems only.
#![tactic(auto)]
