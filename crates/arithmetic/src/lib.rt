//! Words to calculate with: one interface, and two arithmetics behind it.

#![tactic(auto)]

ghost use Rattle.std.specs.Prelude.{◌≡◌, ℤ, pos};
ghost use Rattle.std.specs.Option.{ok_or};
ghost use Rattle.arithmetic.specs.Words.{Ops, Meanings, Sound, round_ops, round_meanings, ranged_ops, ranged_meanings};
ghost use Rattle.std.proofs.Common.{rules};

use bytecode::Argument;

/// A result that no word stands for.
#[derive(Clone, Copy, PartialEq, Eq, Debug)]
pub struct Overflow;

/// Words, each of which means one whole number. `ops` are the operations on words, and `on` what they come to on the numbers
/// that the words mean.
pub trait Arithmetic {
    type Word: Copy;

    ghost means: { Self.Word → ℤ };

    ghost on: { Meanings };

    ghost ops: { Ops Self.Word };

    /// The word for a number from −255 to 255.
    fn number(k: Argument) -> Self::Word
        ensures { result ≡ ops.number k };

    /// The sum, if it does not overflow.
    fn plus(a: Self::Word, b: Self::Word) -> Result<Self::Word, Overflow>
        ensures { result ≡ ok_or (ops.plus a b) (record {}) };

    /// The product, if it does not overflow.
    fn times(a: Self::Word, b: Self::Word) -> Result<Self::Word, Overflow>
        ensures { result ≡ ok_or (ops.times a b) (record {}) };

    /// Whether the two are one word.
    // An operation of the interface, as is the next one, and no `Eq` or `Ord` of the words: an arithmetic says what it means.
    fn same(a: Self::Word, b: Self::Word) -> bool
        ensures { result ≡ ops.same a b };

    /// Whether the first is at most the second.
    fn at_most(a: Self::Word, b: Self::Word) -> bool
        ensures { result ≡ ops.at_most a b };

    ghost sound: { Sound means on ops };
}

/// 16 bits: every result is taken modulo 65,536.
#[derive(Clone, Copy, PartialEq, Eq, Debug)]
pub struct Round;

/// 32 bits with a sign: every result is exact, or an overflow.
#[derive(Clone, Copy, PartialEq, Eq, Debug)]
pub struct Ranged;

impl Arithmetic for Round {
    type Word = u16;

    ghost means = { pos };

    ghost on = { round_meanings };

    ghost ops = { round_ops };

    ghost sound = { Prim.search rules };

    fn number(k: Argument) -> u16 {
        i32::from(k).rem_euclid(65536) as u16
    }

    fn plus(a: u16, b: u16) -> Result<u16, Overflow> {
        Ok(a.wrapping_add(b))
    }

    fn times(a: u16, b: u16) -> Result<u16, Overflow> {
        Ok(a.wrapping_mul(b))
    }

    fn same(a: u16, b: u16) -> bool {
        a == b
    }

    fn at_most(a: u16, b: u16) -> bool {
        a <= b
    }
}

impl Arithmetic for Ranged {
    type Word = i32;

    ghost means = { λ z. z };

    ghost on = { ranged_meanings };

    ghost ops = { ranged_ops };

    ghost sound = { Prim.search rules };

    fn number(k: Argument) -> i32 {
        i32::from(k)
    }

    fn plus(a: i32, b: i32) -> Result<i32, Overflow> {
        a.checked_add(b).ok_or(Overflow)
    }

    fn times(a: i32, b: i32) -> Result<i32, Overflow> {
        a.checked_mul(b).ok_or(Overflow)
    }

    fn same(a: i32, b: i32) -> bool {
        a == b
    }

    fn at_most(a: i32, b: i32) -> bool {
        a <= b
    }
}
