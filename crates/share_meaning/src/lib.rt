// The share in document 01's words. Definitions and theorems only.
#![tactic(auto)]
