// No code: the laws of placing. Homes, placement trees, what the walk means, the tables.
#![tactic(auto)]
