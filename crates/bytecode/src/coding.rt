//! Writing an instruction as a word, and reading the first instruction of a byte slice.

ghost use Rattle.std.specs.Prelude.{◌≡◌, ℕ, List, ◌++◌, IfSome, Some, None};
ghost use Rattle.std.specs.Option.{option_map};
ghost use Rattle.bytecode.specs.Words.{plus, word, bytes_of, signed_word, written, empty_of, size_of, argument_of, instruction_in, decoded};

use crate::argument::Argument;
use crate::instruction::{Instruction, Word};

impl Argument {
    /// The number of this size that is not below 0.
    pub fn plus(size: u8) -> Argument
        ensures { result ≡ plus size }
    {
        Argument {
            negative: false,
            size,
        }
    }

    /// The number of this size below 0; none of size 0.
    pub fn minus(size: u8) -> Option<Argument>
        ensures { result ≡ argument_of 1 size }
    {
        if size == 0 {
            return None;
        }
        Some(Argument {
            negative: true,
            size,
        })
    }
}

// A word with a signed argument.
fn signed(opcode: u8, argument: Argument) -> Word
    ensures { result ≡ signed_word opcode argument }
{
    Word {
        opcode,
        sign: u8::from(argument.negative),
        value: argument.size,
    }
}

// A word with an argument from 0 up.
fn sized(opcode: u8, value: u8) -> Word
    ensures { result ≡ word opcode 0 value }
{
    Word {
        opcode,
        sign: 0,
        value,
    }
}

impl Instruction {
    /// The word that writes the instruction. It reads back as the same instruction, whatever stands behind it.
    pub fn encode(self) -> Word
        ensures value { result ≡ written self }
        ensures back { (rest : List ℕ) → decoded (bytes_of result ++ rest) ≡ (Some self, rest) }
    {
        match self {
            Instruction::Push => sized(0, 0),
            Instruction::Addi => sized(1, 0),
            Instruction::Eqi => sized(2, 0),
            Instruction::Ori => sized(3, 0),
            Instruction::Consti(k) => signed(4, k),
            Instruction::Pop => sized(5, 0),
            Instruction::Acc(k) => sized(6, k),
            Instruction::Popi(k) => sized(7, k),
            Instruction::Branch(k) => signed(8, k),
            Instruction::Branchif(k) => signed(9, k),
            Instruction::Assign(k) => sized(10, k),
            Instruction::Multi => sized(11, 0),
            Instruction::Leqi => sized(12, 0),
        }
    }
}

impl Word {
    // The instruction, if the bytes behind the opcode are 0.
    fn empty(self, instruction: Instruction) -> Option<Instruction>
        ensures { result ≡ empty_of instruction self.sign self.value }
    {
        (self.sign == 0 && self.value == 0).then_some(instruction)
    }

    // The size behind the opcode.
    fn size(self) -> Option<u8>
        ensures { result ≡ size_of self.sign self.value }
    {
        (self.sign == 0).then_some(self.value)
    }

    // The signed number behind the opcode.
    fn argument(self) -> Option<Argument>
        ensures { result ≡ argument_of self.sign self.value }
    {
        match self.sign {
            0 => Some(Argument::plus(self.value)),
            1 => Argument::minus(self.value),
            _ => None,
        }
    }

    /// The instruction that the word is, or none.
    pub fn instruction(self) -> Option<Instruction>
        ensures { result ≡ instruction_in self }
    {
        match self.opcode {
            0 => self.empty(Instruction::Push),
            1 => self.empty(Instruction::Addi),
            2 => self.empty(Instruction::Eqi),
            3 => self.empty(Instruction::Ori),
            4 => Some(Instruction::Consti(self.argument()?)),
            5 => self.empty(Instruction::Pop),
            6 => Some(Instruction::Acc(self.size()?)),
            7 => Some(Instruction::Popi(self.size()?)),
            8 => Some(Instruction::Branch(self.argument()?)),
            9 => Some(Instruction::Branchif(self.argument()?)),
            10 => Some(Instruction::Assign(self.size()?)),
            11 => self.empty(Instruction::Multi),
            12 => self.empty(Instruction::Leqi),
            _ => None,
        }
    }
}

/// The first instruction of the bytes with the bytes behind it, or none with all the bytes, where they begin with no word
/// or with one that is no instruction. The bytes that read as an instruction are those that write it.
// A pair and no option of a pair: all bytes come back where no instruction stands, so a reader goes on from the answer alone.
#[tactic(auto, using(crate::proofs::Words::decodes_only))]
pub fn decode(bytes: &[u8]) -> (Option<Instruction>, &[u8])
    ensures value { (result.0, result.1.now) ≡ decoded bytes.now }
    ensures only { IfSome result.0 (λ i. bytes.now ≡ bytes_of (written i) ++ result.1.now) }
{
    let [opcode, sign, value, rest @ ..] = bytes else {
        return (None, bytes);
    };
    match Word::from([*opcode, *sign, *value]).instruction() {
        Some(instruction) => (Some(instruction), rest),
        None => (None, bytes),
    }
}
