//! Refusals in plain words.

use refusal::Refusal;

/// What is wrong, in one sentence. `ended` says that the place is the end of the text.
pub(crate) fn sentence(why: Refusal, ended: bool) -> &'static str {
    match why {
        Refusal::TextTooLong(_) => "The rule is longer than 4,096 bytes.",
        Refusal::NoToken(_) => "No number, name, word or mark of the language begins here.",
        Refusal::NumberTooLarge(_) => "Numbers lie between -255 and 255.",
        Refusal::Unexpected(_) if ended => "The rule ends here, and something is still missing.",
        Refusal::Unexpected(_) => "This cannot follow what stands before it.",
        Refusal::UnboundName(_) => "No let around it binds this name, and no field has it.",
        Refusal::TooDeep(_) => "Parentheses, if, let, not and ++ nest at most 64 deep.",
        Refusal::TooManyEntries(_) => "The rule has more than 512 numbers, names and operators.",
        Refusal::IllTyped(_) => "The operands here do not have the types that this takes.",
        Refusal::TooHigh(_) =>
            "The rule keeps too many values at once: its stack is higher than 128.",
        Refusal::BranchTooLong(_) => "A branch of this if is too long to jump over.",
        Refusal::MemoryFull(_) => "The code of the rule does not fit the memory.",
        Refusal::StackTooShort => "The stack is too short for the machine to begin.",
        Refusal::BadWord(_) => "The code holds a word that is no instruction.",
        Refusal::StackEmpty(_) => "An instruction takes more values than the stack holds.",
        Refusal::StackFull(_) => "The stack has no room for another value.",
        Refusal::PlaceOutside(_) => "A branch leads outside the code.",
        Refusal::BudgetSpent(_) => "The machine has made as many steps as it may.",
        Refusal::Overflow(_) => "A result is too large for a word.",
        Refusal::OutputTooShort(_) => "The listing is too long for its buffer.",
    }
}
