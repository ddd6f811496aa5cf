// An order that keeps happens-before and the listed pairs agrees with the recorded order: theorems only.
#![tactic(auto)]
