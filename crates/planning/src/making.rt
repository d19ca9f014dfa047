//! From rule text to a printed listing.

ghost use Rattle.std.specs.Prelude.{◌≡◌, ◌≤◌, min, length, IfOk, Err};
ghost use Rattle.refusal.specs.declared.Refusal.{Refusal};
ghost use Rattle.grammar.specs.Laws.{Means};
ghost use Rattle.language.specs.Reading.{reading, leaves};
ghost use Rattle.language.specs.Tree.{Tree, size};
ghost use Rattle.memory.specs.Flat.{room_in};
ghost use Rattle.planning.specs.Plans.{Planned};

use crate::told::Plan;
use building::build;
use language::Entry;
use listing::list;
use memory::Flat;
use refusal::Refusal;

/// Reads the rule into the table, judges it, translates it into the code, and lists the code in the output; answers
/// what is told of the rule, or the first refusal of these parts.
// What the table then holds is said as `read` says it, since who calls this reads no other clause.
pub fn plan(
    text: &[u8],
    table: &mut [Entry],
    code: &mut [u8],
    output: &mut [u8],
) -> Result<Plan, Refusal>
    ensures table { table.new ≡ leaves table.old (reading (length table.old) text.now) }
    ensures unread { (e : Refusal) → reading (length table.old) text.now ≡ Err e → result ≡ Err e }
    ensures planned { (t : Tree) → Means text.now t → length text.now ≤ 4096 → size t ≤ min (length table.old) 512 → Planned (room_in code.old) (length output.old) t result }
    ensures fits { IfOk result (λ p. p.listing ≤ length output.old) }
{
    let mut memory = Flat::new(code);
    let card = build(text, table, &mut memory)?;
    let listing = list(&memory, output)?;
    Ok(Plan { card, listing })
}
