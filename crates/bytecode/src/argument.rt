//! The signed argument of an instruction.

ghost use Rattle.std.specs.Prelude.{ℕ, ◌≤◌, cond};

/// A whole number from −255 to 255, as a word of code writes it: a sign and a size. There is no −0.
// The sign and the size stay apart, since they are two of a word's bytes.
#[derive(Clone, Copy, PartialEq, Eq, Debug)]
pub struct Argument {
    pub negative: bool,
    pub size: u8,
    ghost proper: { cond {A = ℕ} negative 1 0 ≤ size },
}
