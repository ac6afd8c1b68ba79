// No code: what numbers 3 to 9 mean, said of the abstract message.
#![tactic(auto)]
