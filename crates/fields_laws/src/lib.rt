// No code: the laws of fields. That the least fault is found, and what a number is.
#![tactic(auto)]
