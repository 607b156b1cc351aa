// The reading of a line.
ghost use Rattle.std.specs.Prelude.{◌≡◌, ◌≢◌, Err, IfOk};
ghost use Rattle.ledger_spec.specs.Ledger.{IsCommand};
ghost use Rattle.ledger_spec.specs.Reading.{command_in};

use crate::commands::command;
use ledger_spec::{Command, TextFault};
use serde_json::Value;
use std::alloc::Global;

/// What a line of the ledger asks for.
///
/// `Json` comes exactly where the line has no JSON value, and `Shape` where its value breaks a rule on the members that
/// the command needs: it holds the least broken rule, from 1 to 13. `Memory` comes where there was no memory to read the
/// line in, and says nothing of the line. A command is in range.
pub fn read(alloc: Global, line: &[u8]) -> Result<Command, TextFault>
    ensures value { result ≢ Err TextFault.Memory → result ≡ command_in line.now }
    ensures in_range { IfOk result IsCommand }
{
    match Value::from_slice(alloc, line) {
        Ok(value) => command(&value),
        Err(error) => {
            if error.is_memory() {
                Err(TextFault::Memory)
            } else {
                Err(TextFault::Json)
            }
        }
    }
}
