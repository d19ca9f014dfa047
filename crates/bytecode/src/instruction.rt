//! Instructions, and words of code.

use crate::argument::Argument;

/// An instruction of the accumulator machine; `n` is the word on top of the stack, which is taken off.
#[derive(Clone, Copy, PartialEq, Eq, Debug)]
pub enum Instruction {
    /// Puts the accumulator on the stack.
    Push,
    /// `n` plus the accumulator.
    Addi,
    /// 1 if `n` and the accumulator are the same, else 0.
    Eqi,
    /// 0 if `n` and the accumulator are 0, else 1.
    Ori,
    /// The constant.
    Consti(Argument),
    /// `n`.
    Pop,
    /// The word that lies this many below the top.
    Acc(u8),
    /// Takes this many words off the stack.
    Popi(u8),
    /// Goes on at its own place plus this.
    Branch(Argument),
    /// The same if the accumulator is not 0.
    Branchif(Argument),
    /// Overwrites the word that lies this many below the top.
    Assign(u8),
    /// `n` times the accumulator.
    Multi,
    /// 1 if `n` is at most the accumulator, else 0.
    Leqi,
}

/// Three bytes of code. Not every word is an instruction.
#[derive(Clone, Copy, PartialEq, Eq, Debug)]
pub struct Word {
    /// Any byte, not only one that an instruction has: so a number and no enum.
    pub opcode: u8,
    pub sign: u8,
    pub value: u8,
}
