//! The operators of the rule language, each with its row: how tightly it binds, what it takes and gives, and the
//! instruction that works it out.

ghost use Rattle.std.specs.Prelude.{Some};
ghost use Rattle.language.specs.Types.{type_text};

use bytecode::{Argument, Instruction};
use std::fmt;

/// The type of a value: a whole number or a truth value.
#[derive(Clone, Copy, PartialEq, Eq, Debug, Default)]
pub enum ValueType {
    #[default]
    Number,
    Truth,
}

/// The type's name: `number` or `truth`.
impl fmt::Display for ValueType {
    ghost output = { λ t. Some (type_text t) };

    fn fmt<W: fmt::Write>(&self, f: &mut fmt::Formatter<W>) -> fmt::Result {
        f.write_str(match self {
            ValueType::Number => "number",
            ValueType::Truth => "truth",
        })
    }
}

/// An operator between two operands.
#[derive(Clone, Copy, PartialEq, Eq, Debug)]
pub enum Operator {
    Or,
    And,
    Equal,
    AtMost,
    Plus,
    Times,
}

/// An operator before its one operand.
#[derive(Clone, Copy, PartialEq, Eq, Debug)]
pub enum Prefix {
    Not,
    Increment,
}

/// What there is to know of an operator between two operands: its level, 1 being the loosest; whether it may stand
/// beside another of its level, which then groups to the left; the type of both operands, the type of its value, and
/// the instruction that works it out.
#[derive(Clone, Copy, PartialEq, Eq, Debug)]
pub struct Row {
    pub level: usize,
    pub repeats: bool,
    pub takes: ValueType,
    pub gives: ValueType,
    pub instruction: Instruction,
}

/// What there is to know of a prefix: the type of its operand and of its value, and the constant and the instruction
/// that work it out, the operand being pushed.
// Beside `Row`, since a prefix has no level and an operator no constant.
#[derive(Clone, Copy, PartialEq, Eq, Debug)]
pub struct PrefixRow {
    pub takes: ValueType,
    pub gives: ValueType,
    pub constant: Argument,
    pub instruction: Instruction,
}
