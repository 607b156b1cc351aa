// The step from what a call of the system came to, to a counted fault.
ghost use Rattle.std.specs.Prelude.{◌≡◌, Ok, Err, IfOk, OnErr};
ghost use Rattle.paygo_spec.specs.Faults.{Counted};

use paygo_ports::count_fault;
use std::io;

// What a call of the system came to: what it gave, and no fault is counted, or this fault, which is counted once.
pub(crate) fn settle<T, E: Drop>(outcome: io::Result<T>, fault: E, faults: &mut u64) -> Result<T, E>
    ensures given { IfOk outcome (λ value. result ≡ Ok value) }
    ensures failed { OnErr outcome (result ≡ Err fault) }
    ensures counted { Counted outcome faults.old faults.new }
{
    match outcome {
        Ok(value) => Ok(value),
        Err(_) => {
            count_fault(faults);
            Err(fault)
        }
    }
}
