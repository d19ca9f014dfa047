//! The table of operators.

ghost use Rattle.std.specs.Prelude.{◌≡◌};
ghost use Rattle.language.specs.Operators.{row_of, prefix_row_of, row};

use crate::operator::ValueType::{Number, Truth};
use crate::operator::{Operator, Prefix, PrefixRow, Row, ValueType};
use bytecode::{Argument, Instruction};

// A row of the table.
fn row_of(
    level: usize,
    repeats: bool,
    takes: ValueType,
    gives: ValueType,
    instruction: Instruction,
) -> Row
    ensures { result ≡ row level repeats takes gives instruction }
{
    Row {
        level,
        repeats,
        takes,
        gives,
        instruction,
    }
}

impl Operator {
    /// The operator's row of the table.
    pub fn row(self) -> Row
        ensures { result ≡ row_of self }
    {
        match self {
            Operator::Or => row_of(1, true, Truth, Truth, Instruction::Ori),
            Operator::And => row_of(2, true, Truth, Truth, Instruction::Multi),
            Operator::Equal => row_of(3, false, Number, Truth, Instruction::Eqi),
            Operator::AtMost => row_of(3, false, Number, Truth, Instruction::Leqi),
            Operator::Plus => row_of(4, true, Number, Number, Instruction::Addi),
            Operator::Times => row_of(5, true, Number, Number, Instruction::Multi),
        }
    }
}

impl Prefix {
    /// The prefix's row of the table.
    pub fn row(self) -> PrefixRow
        ensures { result ≡ prefix_row_of self }
    {
        match self {
            Prefix::Not => PrefixRow {
                takes: Truth,
                gives: Truth,
                constant: Argument::plus(0),
                instruction: Instruction::Eqi,
            },
            Prefix::Increment => PrefixRow {
                takes: Number,
                gives: Number,
                constant: Argument::plus(1),
                instruction: Instruction::Addi,
            },
        }
    }
}
