//! How the words of a rule keep the height of the stack.

#![tactic(auto)]

ghost use Rattle.effects.specs.Laws.{KeepsHeight, GoesAhead, IsBrief, GoesOn, ReachesHeight, IsFed, AreShort};

/// Whichever way the words of a rule are walked, the stack stands between the eight fields and the rule's height, and at
/// the end where it began; each step goes ahead, so there is at most one for each word, and there is a next one up to
/// the end.
pub fn translations_keep_their_height()
    ensures height { KeepsHeight }
    ensures ahead { GoesAhead }
    ensures brief { IsBrief }
    ensures on { GoesOn }
{}

/// Some way leads to the end of a rule, and some way to its height: where both branches of each if count, no lower
/// height would do.
pub fn translations_reach_their_height()
    ensures { ReachesHeight }
{}

/// Where each name of a rule has a binding, each word that is reached finds on the stack what it needs, and takes off
/// none of the eight fields.
pub fn translations_are_fed()
    ensures { IsFed }
{}

/// A rule has at least one word and at most three for each entry, and stands lower than it has entries.
pub fn translations_are_short()
    ensures { AreShort }
{}
