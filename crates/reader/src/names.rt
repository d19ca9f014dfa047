//! A stack of names.

ghost use Rattle.std.specs.Prelude.{◌≤◌};

/// At most 64 names.
// An array with their number and no vector: a new vector fills an array of its own and copies it, which takes as long as
// reading a short text.
#[derive(Drop)]
pub struct Names<'a> {
    pub names: [&'a [u8]; 64],
    pub count: usize,
    ghost few: { count ≤ 64 },
}
