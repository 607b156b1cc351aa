// How a run ends whose text was written.
ghost use Rattle.std.specs.Prelude.{◌≡◌};
ghost use Rattle.paygo_cli.specs.Ends.{written_by};

use paygo_ports::WriteFault;
use run_spec::Status;

// The status of a run whose whole text was to be written.
pub(crate) fn written(outcome: Result<(), WriteFault>) -> Status
    ensures { result ≡ written_by outcome }
{
    match outcome {
        Ok(()) => Status::Ok,
        Err(WriteFault) => Status::Write,
    }
}
