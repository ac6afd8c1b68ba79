// No code: the laws of rules. Fillings, what a row comes to, the first row, said of homes and of the tree.
#![tactic(auto)]
