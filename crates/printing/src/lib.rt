//! Rules as texts, which read back.

#![tactic(auto)]

ghost use Rattle.printing.specs.Examples.{Examples};
ghost use Rattle.printing.specs.Printing.{ReadsBack, Distinct};

/// The text of a rule is read as that rule, so two rules have two texts.
pub fn printed_rules_read_back()
    ensures back { ReadsBack }
    ensures distinct { Distinct }
    ensures examples { Examples }
{}
