//! Operations on a record memory, exact to the byte.

ghost use Rattle.std.specs.Prelude.{◌≡◌};
ghost use Rattle.storage.specs.Written.{wrote, written};

use crate::Operation;
use memory::CodeMemory;
use records::RecordMemory;

// Beside `perform`, which is proved of what the trait says; and the trait says nothing of bytes.
fn write_one(memory: &mut RecordMemory, operation: Operation)
    ensures { memory.new.bytes ≡ wrote memory.old.bytes operation }
{
    match operation {
        Operation::Append(word) => {
            let _ = memory.append(word);
        }
        Operation::Clear => memory.clear(),
    }
}

/// Performs the operations one after another. Every byte of the memory is then what they say, from the bytes before.
pub fn write_all(memory: &mut RecordMemory, operations: &[Operation])
    ensures { memory.new.bytes ≡ written memory.old.bytes operations.now }
{
    for operation in operations {
        write_one(memory, *operation);
    }
}
