// No code: the laws of a message in pieces. That it is read as one.
#![tactic(auto)]
