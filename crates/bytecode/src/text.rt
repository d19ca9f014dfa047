//! Instructions and arguments as text.

ghost use Rattle.std.specs.Prelude.{◌≡◌, ◌≤◌, Some, length};
ghost use Rattle.bytecode.specs.Text.{name_of, argument_in, text_of, instruction_text};

use crate::argument::Argument;
use crate::instruction::Instruction;
use std::fmt;

impl Instruction {
    /// The instruction's name, as printed.
    pub fn name(self) -> &'static str
        ensures value { result.now ≡ name_of self }
        ensures short { length result.now ≤ 8 }
    {
        match self {
            Instruction::Push => "Push",
            Instruction::Addi => "Addi",
            Instruction::Eqi => "Eqi",
            Instruction::Ori => "Ori",
            Instruction::Consti(_) => "Consti",
            Instruction::Pop => "Pop",
            Instruction::Acc(_) => "Acc",
            Instruction::Popi(_) => "Popi",
            Instruction::Branch(_) => "Branch",
            Instruction::Branchif(_) => "Branchif",
            Instruction::Assign(_) => "Assign",
            Instruction::Multi => "Multi",
            Instruction::Leqi => "Leqi",
        }
    }

    /// The instruction's argument, if it has one.
    pub fn argument(self) -> Option<Argument>
        ensures { result ≡ argument_in self }
    {
        match self {
            Instruction::Consti(k) | Instruction::Branch(k) | Instruction::Branchif(k) => Some(k),
            Instruction::Acc(k) | Instruction::Popi(k) | Instruction::Assign(k) => {
                Some(Argument::plus(k))
            }
            _ => None,
        }
    }
}

/// The whole number that the argument is, in decimal.
impl fmt::Display for Argument {
    ghost output = { λ k. Some (text_of k) };

    fn fmt<W: fmt::Write>(&self, f: &mut fmt::Formatter<W>) -> fmt::Result {
        let number = i32::from(*self);
        write!(f, "{number}")
    }
}

/// The instruction's name, and behind a blank its argument, if it has one.
impl fmt::Display for Instruction {
    ghost output = { λ i. Some (instruction_text i) };

    fn fmt<W: fmt::Write>(&self, f: &mut fmt::Formatter<W>) -> fmt::Result {
        let name = self.name();
        match self.argument() {
            Some(argument) => write!(f, "{name} {argument}"),
            None => f.write_str(name),
        }
    }
}
