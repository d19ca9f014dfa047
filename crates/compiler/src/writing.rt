//! The whole translation: measured first, then written or refused.

ghost use Rattle.std.specs.Prelude.{◌≡◌, ◌+◌, ◌≤◌, Some, None, OnErr, MatchResult};
ghost use Rattle.language.specs.Code.{refusal_of};
ghost use Rattle.language.specs.Tree.{Tree, flatten};
ghost use Rattle.compiler.specs.Cards.{Answers};
ghost use Rattle.compiler.specs.Translating.{reason_for, code_after};

use crate::card::Card;
use crate::emit::emit;
use crate::layout::Layout;
use grammar::Rule;
use language::ValueType;
use memory::CodeMemory;
use refusal::Refusal;
use shapes::{Shape, measure};

// How high the stack stands at most over code of this shape, the eight fields included; or why that code is not written
// to a memory with this room.
fn admitted(shape: Shape, room: usize) -> Result<usize, Refusal>
    requires { shape.tall ≤ 512 }
    ensures { MatchResult result (λ h. (reason_for room shape ≡ None) × (h ≡ 8 + shape.tall)) (λ e. reason_for room shape ≡ Some e) }
{
    let height = 8 + shape.tall;
    if height > 128 {
        return Err(Refusal::TooHigh(height));
    }
    if let Some(place) = shape.wide {
        return Err(Refusal::BranchTooLong(place));
    }
    if shape.length > room {
        return Err(Refusal::MemoryFull(shape.length));
    }
    Ok(height)
}

/// Writes the translation of a rule of this type as the memory's whole list, and answers its card; or refuses, and
/// leaves the memory as it was: a rule that is too high first, then one with a branch too long for a jump, then one too
/// long for the memory.
pub fn translate<M: CodeMemory>(
    rule: Rule<'_>,
    gives: ValueType,
    memory: &mut M,
) -> Result<Card, Refusal>
    ensures same { M.room memory.new ≡ M.room memory.old }
    ensures value { (t : Tree) → rule.entry.entries.now ≡ flatten t → Answers (refusal_of (M.room memory.old) t) gives t result }
    ensures code { (t : Tree) → rule.entry.entries.now ≡ flatten t → M.listed memory.new ≡ code_after (refusal_of (M.room memory.old) t) t (M.listed memory.old) }
    ensures kept { (t : Tree) → rule.entry.entries.now ≡ flatten t → OnErr result (memory.new ≡ memory.old) }
{
    let shape = measure(rule.entries);
    let height = admitted(shape, memory.capacity())?;
    memory.clear();
    emit(rule.entries, &mut Layout::fields(), memory)?;
    Ok(Card {
        gives,
        length: shape.length,
        height,
    })
}
