//! The names of lets, and the search for a name.

ghost use Rattle.std.specs.Prelude.{◌≡◌, ◌+◌, ◌-◌, ◌<◌, [], ◌∷◌, ◌++◌, length, take, drop, IfSome};
ghost use Rattle.language.specs.Names.{field_names, find, position};
ghost use Rattle.reader.specs.Scopes.{newest_first, held};

use crate::names::Names;

impl<'a> Names<'a> {
    /// No names.
    pub(crate) fn new() -> Names<'a>
        ensures { held result ≡ [] }
    {
        let none: &'a [u8] = &[];
        Names {
            names: [none; 64],
            count: 0,
        }
    }

    /// Puts a name on top.
    pub(crate) fn push(&mut self, text: &'a [u8])
        requires { length (held self.old) < 64 }
        ensures { held self.new ≡ text.now ∷ held self.old }
    {
        self.names[self.count] = text;
        self.count += 1;
    }

    /// Takes the name on top off.
    pub(crate) fn pop(&mut self)
        ensures held { held self.new ≡ drop 1 (held self.old) }
        ensures count { length (held self.new) ≡ length (held self.old) - 1 }
    {
        self.count = self.count.saturating_sub(1);
    }

    /// Takes the name on top off and puts it on top of the others.
    pub(crate) fn hand_over(&mut self, others: &mut Names<'a>)
        requires some { 0 < length (held self.old) }
        requires room { length (held others.old) < 64 }
        ensures held { held self.new ≡ drop 1 (held self.old) }
        ensures others { held others.new ≡ take 1 (held self.old) ++ held others.old }
        ensures count { length (held self.new) + 1 ≡ length (held self.old) }
        ensures counted { length (held others.new) ≡ length (held others.old) + 1 }
    {
        let last = self.count - 1;
        others.push(self.names[last]);
        self.count = last;
    }

    /// The position of a name, the newest name being the innermost binding and the fields standing outside all names.
    pub(crate) fn position(&self, text: &[u8]) -> Option<usize>
        ensures value { result ≡ position text.now (held self.now) }
        ensures bound { IfSome result (λ i. i < 72) }
    {
        find_among(&self.names[..self.count], text)
    }
}

// The fields of a parcel, the innermost first.
const FIELDS: [&[u8]; 8] = [
    b"weight", b"length", b"width", b"height", b"depot", b"class", b"belt", b"ahead",
];

// The field of that name.
fn field(name: &[u8]) -> Option<usize>
    ensures value { result ≡ find name.now field_names }
    ensures bound { IfSome result (λ i. i < 8) }
{
    FIELDS.iter().position(|field| *field == name)
}

// Tries the newest name, and else calls on itself for those outside it.
fn find_among(names: &[&[u8]], text: &[u8]) -> Option<usize>
    ensures value { result ≡ position text.now (newest_first names.now) }
    ensures bound { IfSome result (λ i. i < length names.now + 8) }
{
    let Some((newest, outer)) = names.split_last() else {
        return field(text);
    };
    if *newest == text {
        return Some(0);
    }
    find_among(outer, text).map(|i| i + 1)
}
