// No code: the laws of the reading. That the machine means what the grammar says, and that a text has one reading.
#![tactic(auto)]
