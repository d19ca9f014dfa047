//! Worked examples of what rules mean, proved of the definitions.

#![tactic(auto)]

ghost use Rattle.facts.specs.Facts.{Facts};

/// Some rules, from their text to the lane that they name.
pub fn worked_rules()
    ensures { Facts }
{}
