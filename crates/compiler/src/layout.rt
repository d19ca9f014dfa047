//! Where on the stack the bindings in scope stand.

ghost use Rattle.std.specs.Prelude.{◌≡◌, ◌+◌, ◌-◌, ◌<◌, ◌≤◌, List, [], ◌∷◌, ◌++◌, length, take, reverse};
ghost use Rattle.arrayvec.specs.ArrayVec.{array_vec_len};
ghost use Rattle.language.specs.Code.{Slot, above, field_slots};
ghost use Rattle.compiler.specs.Layouts.{spots_of};

use parts::{Bindings, bound};

/// For each binding in scope, the innermost last, how many words stand below its own; and how many words stand on the
/// stack. There is room for the eight fields and for one word for each entry of a table.
#[derive(Drop)]
pub struct Layout {
    pub spots: Bindings<usize>,
    pub height: usize,
    ghost within: { array_vec_len spots ≤ height },
    ghost bounded: { height ≤ 520 },
}

impl Layout {
    /// The eight fields, the first on top.
    pub(crate) fn fields() -> Layout
        ensures height { result.height ≡ 8 }
        ensures spots { reverse result.spots.items ≡ spots_of field_slots }
    {
        let mut layout = Layout {
            spots: Bindings::new(),
            height: 0,
        };
        for _field in 0..8_usize {
            layout.bind();
        }
        layout
    }

    /// A pushed word is an operand that waits.
    pub(crate) fn wait(&mut self)
        requires { self.old.height < 520 }
        ensures height { self.new.height ≡ self.old.height + 1 }
        ensures spots { self.new.spots ≡ self.old.spots }
    {
        self.height += 1;
    }

    /// The operand is taken off.
    pub(crate) fn resume(&mut self)
        requires { array_vec_len self.old.spots < self.old.height }
        ensures height { self.new.height + 1 ≡ self.old.height }
        ensures spots { self.new.spots ≡ self.old.spots }
    {
        self.height -= 1;
    }

    /// A pushed word is the value of a let.
    pub(crate) fn bind(&mut self)
        requires { self.old.height < 520 }
        ensures height { self.new.height ≡ self.old.height + 1 }
        ensures spots { self.new.spots.items ≡ self.old.spots.items ++ self.old.height ∷ [] }
    {
        let below = self.height;
        self.wait();
        self.spots.push(below);
    }

    /// The let ends.
    pub(crate) fn unbind(&mut self)
        requires { 0 < array_vec_len self.old.spots }
        ensures height { self.new.height + 1 ≡ self.old.height }
        ensures spots { self.new.spots.items ≡ take (array_vec_len self.old.spots - 1) self.old.spots.items }
    {
        self.spots.pop();
        self.resume();
    }

    /// How many words stand above the binding at a position, 0 being the innermost; all of them, where there is none.
    pub(crate) fn above(&self, position: u8) -> usize
        ensures { (s : List Slot) → spots_of s ≡ reverse self.now.spots.items → length s ≡ self.now.height → result ≡ above s position }
    {
        bound(&self.spots, position).map_or(self.height, |below| {
            self.height.saturating_sub(below).saturating_sub(1)
        })
    }
}
