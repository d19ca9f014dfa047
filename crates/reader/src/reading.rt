//! Reading a whole text.

ghost use Rattle.std.specs.Prelude.{◌≡◌, ◌≤◌, length, IfOk};
ghost use Rattle.language.specs.Fold.{fresh};
ghost use Rattle.language.specs.Reading.{parse, reading, answer, leaves};
ghost use Rattle.reader.specs.Outcomes.{paired, laid};
ghost use Rattle.reader.specs.Steps.{view};

use crate::kinds::is_last;
use crate::parser::Parser;
use language::Entry;
use lexer::Lexer;
use refusal::Refusal;

impl<'t, 'a> Parser<'t, 'a> {
    // Takes every token of the text, and answers how many entries the tree has.
    fn take_all(&mut self, text: &'a [u8]) -> Result<usize, Refusal>
        requires { view self.old ≡ fresh }
        ensures written { paired result self.new.table.now ≡ laid self.old.table.now 0 (parse text.now) }
        ensures same { self.new.table.ghost_name ≡ self.old.table.ghost_name }
    {
        let mut lexer = Lexer::new(text);
        loop {
            let token = lexer.next();
            self.step(token)?;
            if is_last(token.kind) {
                return Ok(self.count);
            }
        }
    }
}

// Writes the entries of the tree, where the text is not too long and they all find room, and answers how many they are.
fn write(text: &[u8], table: &mut [Entry]) -> Result<usize, Refusal>
    ensures written { paired result table.new ≡ laid table.old 0 (reading (length table.old) text.now) }
    ensures room { IfOk result (λ n. n ≤ length table.old) }
{
    if text.len() > 4096 {
        return Err(Refusal::TextTooLong(text.len()));
    }
    let mut parser = Parser::new(table);
    let count = parser.take_all(text)?;
    let Parser { table, .. } = parser;
    if count > table.len().min(512) {
        return Err(Refusal::TooManyEntries(count));
    }
    Ok(count)
}

/// Reads the text into the table, its tree in post-order from the first entry on, and answers how many entries the
/// tree has; the other entries stay as they were. A refusal leaves every entry blank.
pub fn read(text: &[u8], table: &mut [Entry]) -> Result<usize, Refusal>
    ensures answer { result ≡ answer (reading (length table.old) text.now) }
    ensures table { table.new ≡ leaves table.old (reading (length table.old) text.now) }
{
    let read = write(text, table);
    if read.is_err() {
        table.fill(Entry::BLANK);
    }
    read
}
