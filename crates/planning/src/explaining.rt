//! A refusal in plain words, and where in the rule it points.

ghost use Rattle.std.specs.Prelude.{◌≡◌, ◌≤◌, length};
ghost use Rattle.planning.specs.Explanations.{place_of};

use refusal::Refusal;

/// The byte of the rule's text that a refusal points at, if it points at one.
// Not by `Refusal::detail`, which is a number for each refusal and no place for most.
pub fn place(refusal: Refusal) -> Option<usize>
    ensures { result ≡ place_of refusal }
{
    match refusal {
        Refusal::NoToken(place)
        | Refusal::NumberTooLarge(place)
        | Refusal::Unexpected(place)
        | Refusal::UnboundName(place)
        | Refusal::TooDeep(place)
        | Refusal::IllTyped(place)
        | Refusal::BranchTooLong(place) => Some(place),
        Refusal::TextTooLong(_)
        | Refusal::TooManyEntries(_)
        | Refusal::TooHigh(_)
        | Refusal::MemoryFull(_)
        | Refusal::StackTooShort
        | Refusal::BadWord(_)
        | Refusal::StackEmpty(_)
        | Refusal::StackFull(_)
        | Refusal::PlaceOutside(_)
        | Refusal::BudgetSpent(_)
        | Refusal::Overflow(_)
        | Refusal::OutputTooShort(_) => None,
    }
}
