// No code: the laws of the tally. That it adds up over any calls.
#![tactic(auto)]
