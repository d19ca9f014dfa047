//! A value for each binding in scope.

ghost use Rattle.std.specs.Prelude.{◌≡◌, reverse};
ghost use Rattle.std.specs.List.{slice_get};

use arrayvec::ArrayVec;

/// A value for each binding in scope, the innermost last. There is room for the eight fields and for as many lets as a
/// table has entries.
pub type Bindings<T> = ArrayVec<T, 520>;

/// The value of the binding at a position, 0 being the innermost.
pub fn bound<T: Copy>(bindings: &Bindings<T>, position: u8) -> Option<T>
    ensures { result ≡ slice_get (reverse bindings.now.items) position }
{
    bindings.iter().rev().nth(usize::from(position)).copied()
}
