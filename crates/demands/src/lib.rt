// No code: what 01's table means, the three demands, and that the call that is shipped keeps them.
#![tactic(auto)]
