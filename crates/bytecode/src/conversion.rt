//! Words as bytes, and arguments as whole numbers.

ghost use Rattle.std.specs.Prelude.{◌≡◌, ℕ, List};
ghost use Rattle.bytecode.specs.Words.{bytes_of, whole};

use crate::argument::Argument;
use crate::instruction::Word;

/// The word that these bytes are, in their order.
impl From<[u8; 3]> for Word {
    ghost from_gives = { λ bytes w. bytes_of w ≡ bytes };

    fn from(bytes: [u8; 3]) -> Word {
        let [opcode, sign, value] = bytes;
        Word {
            opcode,
            sign,
            value,
        }
    }
}

/// The word's three bytes, in their order.
impl From<Word> for [u8; 3] {
    ghost from_gives = { λ w bytes. bytes ≡ bytes_of w };

    fn from(word: Word) -> [u8; 3] {
        [word.opcode, word.sign, word.value]
    }
}

/// The whole number that the argument is.
impl From<Argument> for i32 {
    ghost from_gives = { λ k z. z ≡ whole k };

    fn from(k: Argument) -> i32 {
        let size = i32::from(k.size);
        if k.negative { -size } else { size }
    }
}
