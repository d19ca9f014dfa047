//! A rule that was read.

ghost use Rattle.std.specs.Prelude.{◌≤◌, length};
ghost use Rattle.grammar.specs.Formed.{Formed};

use language::Entry;

/// The entries of a rule: at most 512, and the table of a tree in which each name is bound. No other entries can be
/// judged or translated.
#[derive(Clone, Copy, PartialEq, Eq, Debug)]
pub struct Rule<'t> {
    pub entries: &'t [Entry],
    ghost few: { length entries.now ≤ 512 },
    ghost formed: { ∥ Formed entries.now ∥₁ },
}
