//! Why a call gets nothing. Every refusal of the product is a case here, with what it carries; its number, the part
//! that finds it and its detail are three definitions that all contracts share.

#![tactic(auto)]

ghost use Rattle.std.specs.Prelude.{◌≡◌, Some};
ghost use Rattle.refusal.specs.Refusals.{number_of, part_of, detail_of, name_of, line_of};

use std::error::Error;
use std::fmt;

/// The part of the product that finds a refusal.
#[derive(Clone, Copy, PartialEq, Eq, Debug)]
pub enum Part {
    Reader,
    Judge,
    Translator,
    CodeMemory,
    Machine,
    Arithmetic,
    Listing,
}

/// A refusal. A place counts bytes of the rule's text; of `BadWord` and those of the machine, words of code.
#[derive(Clone, Copy, PartialEq, Eq, Debug)]
pub enum Refusal {
    /// The text has this many bytes, more than 4,096.
    TextTooLong(usize),
    /// No token begins at this place.
    NoToken(usize),
    /// The number at this place lies beyond 255 on either side of 0.
    NumberTooLarge(usize),
    /// The token, or the end of the text, at this place cannot follow what stands before it.
    Unexpected(usize),
    /// The name at this place is bound by no let, and is no field.
    UnboundName(usize),
    /// The 65th nested parenthesis, if, let, not or ++ begins at this place.
    TooDeep(usize),
    /// The tree has this many entries, more than the table or more than 512.
    TooManyEntries(usize),
    /// The entry with this place is the first whose types do not fit.
    IllTyped(usize),
    /// The rule's height is this, over 128.
    TooHigh(usize),
    /// The if at this place is the first with a branch too long for a jump.
    BranchTooLong(usize),
    /// This many words do not fit; of one word appended, the capacity.
    MemoryFull(usize),
    /// The stack is shorter than the base and the height of a run.
    StackTooShort,
    /// The word at this place is no instruction.
    BadWord(usize),
    /// The word at this place takes or reads more words than lie above the base.
    StackEmpty(usize),
    /// The word at this place has no room for a push.
    StackFull(usize),
    /// The word at this place goes on outside the code.
    PlaceOutside(usize),
    /// The budget is spent before the word at this place.
    BudgetSpent(usize),
    /// The result of the word at this place overflows.
    Overflow(usize),
    /// The output would take this many bytes.
    OutputTooShort(usize),
}

impl Part {
    /// The part's name, as printed.
    pub fn name(self) -> &'static str
        ensures { result.now ≡ name_of self }
    {
        match self {
            Part::Reader => "reader",
            Part::Judge => "judge",
            Part::Translator => "translator",
            Part::CodeMemory => "code memory",
            Part::Machine => "machine",
            Part::Arithmetic => "arithmetic",
            Part::Listing => "listing",
        }
    }
}

impl Refusal {
    /// The refusal's number.
    // By a match, since the cases hold places and more, and so none is cast to a number.
    pub fn number(self) -> u8
        ensures { result ≡ number_of self }
    {
        match self {
            Refusal::TextTooLong(_) => 1,
            Refusal::NoToken(_) => 2,
            Refusal::NumberTooLarge(_) => 3,
            Refusal::Unexpected(_) => 4,
            Refusal::UnboundName(_) => 5,
            Refusal::TooDeep(_) => 6,
            Refusal::TooManyEntries(_) => 7,
            Refusal::IllTyped(_) => 8,
            Refusal::TooHigh(_) => 9,
            Refusal::BranchTooLong(_) => 10,
            Refusal::MemoryFull(_) => 11,
            Refusal::StackTooShort => 14,
            Refusal::BadWord(_) => 15,
            Refusal::StackEmpty(_) => 16,
            Refusal::StackFull(_) => 17,
            Refusal::PlaceOutside(_) => 18,
            Refusal::BudgetSpent(_) => 19,
            Refusal::Overflow(_) => 20,
            Refusal::OutputTooShort(_) => 21,
        }
    }

    /// The part that finds it.
    pub fn part(self) -> Part
        ensures { result ≡ part_of self }
    {
        match self {
            Refusal::TextTooLong(_)
            | Refusal::NoToken(_)
            | Refusal::NumberTooLarge(_)
            | Refusal::Unexpected(_)
            | Refusal::UnboundName(_)
            | Refusal::TooDeep(_)
            | Refusal::TooManyEntries(_) => Part::Reader,
            Refusal::IllTyped(_) => Part::Judge,
            Refusal::TooHigh(_) | Refusal::BranchTooLong(_) => Part::Translator,
            Refusal::MemoryFull(_) => Part::CodeMemory,
            Refusal::StackTooShort
            | Refusal::BadWord(_)
            | Refusal::StackEmpty(_)
            | Refusal::StackFull(_)
            | Refusal::PlaceOutside(_)
            | Refusal::BudgetSpent(_) => Part::Machine,
            Refusal::Overflow(_) => Part::Arithmetic,
            Refusal::OutputTooShort(_) => Part::Listing,
        }
    }

    /// What it carries: a place, a length, a height or a number of entries, words or bytes; 0 where it carries nothing.
    pub fn detail(self) -> usize
        ensures { result ≡ detail_of self }
    {
        match self {
            Refusal::TextTooLong(detail)
            | Refusal::NoToken(detail)
            | Refusal::NumberTooLarge(detail)
            | Refusal::Unexpected(detail)
            | Refusal::UnboundName(detail)
            | Refusal::TooDeep(detail)
            | Refusal::TooManyEntries(detail)
            | Refusal::IllTyped(detail)
            | Refusal::TooHigh(detail)
            | Refusal::BranchTooLong(detail)
            | Refusal::MemoryFull(detail)
            | Refusal::BadWord(detail)
            | Refusal::StackEmpty(detail)
            | Refusal::StackFull(detail)
            | Refusal::PlaceOutside(detail)
            | Refusal::BudgetSpent(detail)
            | Refusal::Overflow(detail)
            | Refusal::OutputTooShort(detail) => detail,
            Refusal::StackTooShort => 0,
        }
    }
}

/// The part's name.
impl fmt::Display for Part {
    ghost output = { λ p. Some (name_of p) };

    fn fmt<W: fmt::Write>(&self, f: &mut fmt::Formatter<W>) -> fmt::Result {
        f.write_str(self.name())
    }
}

/// The printed line of a refusal: `refused NUMBER PART DETAIL`.
impl fmt::Display for Refusal {
    ghost output = { λ x. Some (line_of x) };

    fn fmt<W: fmt::Write>(&self, f: &mut fmt::Formatter<W>) -> fmt::Result {
        let number = self.number();
        let part = self.part();
        let detail = self.detail();
        write!(f, "refused {number} {part} {detail}")
    }
}

impl Error for Refusal {}
