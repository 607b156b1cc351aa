// The reading of a line.
ghost use Rattle.std.specs.Prelude.{◌≡◌, ◌≢◌, Err, IfOk};
ghost use Rattle.sheet_text.specs.Asks.{ask_in, AskIsInRange};

use crate::asks::{Ask, asked_by};
use ledger_spec::TextFault;
use serde_json::Value;
use std::alloc::Global;

/// What a line of sheets asks for.
///
/// `Json` comes exactly where the line has no JSON value, and `Shape` where its value breaks a rule on `do` or on the
/// members that it needs: it holds the least broken rule, which is 1, 2, 10 or from 13 to 17. `Memory` comes where
/// there was no memory to read the line in, and says nothing of the line. What is asked for is in range.
pub fn read(alloc: Global, line: &[u8]) -> Result<Ask, TextFault>
    ensures value { result ≢ Err TextFault.Memory → result ≡ ask_in line.now }
    ensures in_range { IfOk result AskIsInRange }
{
    match Value::from_slice(alloc, line) {
        Ok(value) => asked_by(&value),
        Err(error) => {
            if error.is_memory() {
                Err(TextFault::Memory)
            } else {
                Err(TextFault::Json)
            }
        }
    }
}
