// The page in document 01's words: what it says of an accepted trace, and that one page is one list. Definitions and theorems only.
#![tactic(auto)]
