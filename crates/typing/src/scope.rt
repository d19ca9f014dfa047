//! The types of the bindings in scope.

ghost use Rattle.std.specs.Prelude.{◌≡◌, reverse};
ghost use Rattle.language.specs.Typing.{fields};

use language::ValueType;
use parts::Bindings;

/// The types of the eight fields.
pub(crate) fn fields() -> Bindings<ValueType>
    ensures { reverse result.items ≡ fields }
{
    let mut scope = Bindings::new();
    for _field in 0..8_usize {
        scope.push(ValueType::Number);
    }
    scope
}
