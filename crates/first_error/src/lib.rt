//! The first error decides: what stands behind it in a text changes nothing.

#![tactic(auto)]

ghost use Rattle.first_error.specs.Law.{Placed, Decides, ReadingDecides};

/// A text is refused at a token, and the same refusal comes whatever stands behind that token and one byte more.
pub fn the_first_error_decides()
    ensures placed { Placed }
    ensures text { Decides }
    ensures reading { ReadingDecides }
{}
