// Texts, searches and lists: definitions and laws only.
#![tactic(auto)]
