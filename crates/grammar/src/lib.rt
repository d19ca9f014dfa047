//! The grammar of rules, and that reading keeps it.

#![tactic(auto)]

mod rule;

ghost use Rattle.grammar.specs.Examples.{Examples};
ghost use Rattle.grammar.specs.Laws.{Sound, Complete, Unambiguous, Faithful, Sized, Closed, TextSound, TextExact, TextComplete, TextUnambiguous, TextRefused, ReadingSound, ReadingComplete};

pub use rule::Rule;

/// A table is that of one tree, with an entry for each node.
pub fn tables_stand()
    ensures faithful { Faithful }
    ensures sized { Sized }
{}

/// What is read is what the grammar derives; tokens have at most one tree, and each name in it is bound.
pub fn grammar_stands()
    ensures sound { Sound }
    ensures complete { Complete }
    ensures unambiguous { Unambiguous }
    ensures closed { Closed }
{}

/// A text is read as the one tree that it stands for, or refused, and then it stands for none.
pub fn texts_stand()
    ensures sound { TextSound }
    ensures exact { TextExact }
    ensures complete { TextComplete }
    ensures unambiguous { TextUnambiguous }
    ensures refused { TextRefused }
{}

/// The same for a text that is read into a table: it is read if and only if it stands for a tree, and text and tree are
/// not too long.
pub fn reading_stands()
    ensures sound { ReadingSound }
    ensures complete { ReadingComplete }
{}

/// Texts whose trees are known.
pub fn examples_stand()
    ensures { Examples }
{}
