//! What a rule is worth, over any arithmetic, without a machine. It holds definitions only.

#![tactic(auto)]
