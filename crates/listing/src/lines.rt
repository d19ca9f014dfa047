//! The line of one instruction.

ghost use Rattle.std.specs.Prelude.{◌≡◌, ◌+◌, ◌≤◌, ◌++◌};
ghost use Rattle.arrayvec.specs.ArrayString.{array_string_len};
ghost use Rattle.bytecode.specs.Text.{instruction_text};
ghost use Rattle.listing.specs.Lines.{line_of};

use arrayvec::ArrayString;
use bytecode::Instruction;
use itoa::Buffer;

/// A line has at most 42 bytes: 20 digits, two blanks, a name of 8 letters, a number of at most 11 bytes and the newline.
pub(crate) type Line = ArrayString<42>;

// Appends an instruction. No contract says that `write!` succeeds, and a listing always does: so the parts of a line are
// appended one by one.
fn push_instruction(line: &mut Line, instruction: Instruction)
    requires { array_string_len line.old ≤ 21 }
    ensures bytes { line.new.bytes ≡ line.old.bytes ++ instruction_text instruction }
    ensures short { array_string_len line.new ≤ array_string_len line.old + 20 }
{
    line.push_str(instruction.name());
    if let Some(argument) = instruction.argument() {
        line.push(' ');
        line.push_str(Buffer::new().format(i32::from(argument)));
    }
}

// The line of an instruction at a place of the code.
pub(crate) fn line(place: usize, instruction: Instruction) -> Line
    ensures { result.bytes ≡ line_of place instruction }
{
    let mut line = Line::new();
    line.push_str(Buffer::new().format(place));
    line.push(' ');
    push_instruction(&mut line, instruction);
    line.push('\n');
    line
}
