//! The code of a rule, run on the machine, does what the rule is worth.

#![tactic(auto)]

ghost use Rattle.simulation.specs.Answered.{Answers};
ghost use Rattle.simulation.specs.Law.{Lawful, Computes, AreBound};

use arithmetic::Arithmetic;

/// Over all operations that are lawful on the words for 0 and 1, for each rule, stack and budget that is large enough:
/// how the run ends, and what its caller is told.
pub fn translations_compute_their_worth<W>()
    ensures ends { Computes W }
    ensures answers { Answers W }
{}

/// The operations of every arithmetic are lawful.
pub fn arithmetics_are_lawful<A: Arithmetic>()
    ensures { Lawful A.Arithmetic.ops }
{}

/// The names of a well typed rule are bound.
pub fn typed_rules_are_bound()
    ensures { AreBound }
{}
