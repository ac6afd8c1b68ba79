// No code: the laws of guide books. What the rules of a good book give the layers above, by name; and two books that are good.
#![tactic(auto)]
