//! From the text of a rule to its code in a memory.

#![tactic(auto)]

ghost use Rattle.std.specs.Prelude.{◌≡◌, length, Some, OnErr};
ghost use Rattle.building.specs.Built.{Built, Stands};
ghost use Rattle.building.specs.Rules.{rule_of, unfit, refusal_for};
ghost use Rattle.language.specs.Reading.{reading, leaves};
ghost use Rattle.language.specs.Tree.{Tree, flatten};

use compiler::{Card, translate};
use grammar::Rule;
use language::Entry;
use memory::CodeMemory;
use reader::read;
use refusal::Refusal;
use typing::judge;

// Judges a rule, and writes its code as the memory's whole list.
fn compile<M: CodeMemory>(rule: Rule<'_>, memory: &mut M) -> Result<Card, Refusal>
    ensures same { M.room memory.new ≡ M.room memory.old }
    ensures built { (t : Tree) → rule.entry.entries.now ≡ flatten t → Built (unfit (M.room memory.old) t) (Some t) result (M.listed memory.old) (M.listed memory.new) }
    ensures kept { (t : Tree) → rule.entry.entries.now ≡ flatten t → OnErr result (memory.new ≡ memory.old) }
{
    let gives = judge(rule)?;
    translate(rule, gives, memory)
}

/// Reads the text into the table, judges the rule, and writes its code as the memory's whole list; answers its card, or
/// the first refusal of these parts, and then the memory is as it was.
// What the table then holds is said as `read` says it, since who calls this reads no other clause.
pub fn build<M: CodeMemory>(
    text: &[u8],
    table: &mut [Entry],
    memory: &mut M,
) -> Result<Card, Refusal>
    ensures same { M.room memory.new ≡ M.room memory.old }
    ensures table { table.new ≡ leaves table.old (reading (length table.old) text.now) }
    ensures built { Built (refusal_for (M.room memory.old) (length table.old) text.now) (rule_of (length table.old) text.now) result (M.listed memory.old) (M.listed memory.new) }
    ensures kept { OnErr result (memory.new ≡ memory.old) }
{
    let count = read(text, table)?;
    let rule = Rule {
        entries: &table[0..count],
    };
    compile(rule, memory)
}

/// The rule of a text is the tree that the grammar gives the text.
pub fn rules_stand()
    ensures { Stands }
{}
