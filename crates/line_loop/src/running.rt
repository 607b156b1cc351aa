// The turns of the loop: a line is taken and handled, or the run ends.
ghost use Rattle.std.specs.Prelude.{◌≡◌, ◌≢◌, true, Some};
ghost use Rattle.line_loop.specs.Handling.{desk, Loops};
ghost use Rattle.line_loop.specs.Outside.{outside, Causes, IsLong, Reads};
ghost use Rattle.line_loop.specs.Turn.{parts, Turned, ended_by, concluded_by};

use crate::handler::{LineFault, LineHandler, as_line_fault};
use crate::lines::{Lines, LinesFault, Next};
use ledger_keeper::Keeper;
use paygo_ports::{Flash, Sink, Source, WriteFault};
use run_spec::Status;
use std::alloc::Global;

/// The most bytes of input that are taken in one run: 2^40.
const BUDGET: u64 = 1 << 40;

// Takes the next line and has it handled. Answers the status where the run ends with it.
fn turn<H: LineHandler, S: Source, K: Sink, D: Keeper, F: Flash>(
    alloc: Global,
    lines: &mut Lines,
    handler: &mut H,
    source: &mut S,
    sink: &mut K,
    keeper: &mut D,
    flash: &mut F,
) -> Option<Status>
    requires { H.is_ready handler.old (F.view flash.old) }
    ensures is_ready { H.is_ready handler.new (F.view flash.new) }
    ensures causes { Causes result
        (outside (S.view source.old) (K.view sink.old) (D.view keeper.old) (F.view flash.old))
        (outside (S.view source.new) (K.view sink.new) (D.view keeper.new) (F.view flash.new)) }
    ensures keeper { H.spares_keeper handler.old → (keeper.new ≡ keeper.old) × H.spares_keeper handler.new }
    ensures flash { H.spares_flash handler.old → (flash.new ≡ flash.old) × H.spares_flash handler.new }
    ensures turned { Turned H.handles H.concludes result
        (parts lines.old (S.view source.old)
        (desk handler.old (D.view keeper.old) (F.view flash.old) (K.view sink.old)))
        (parts lines.new (S.view source.new)
        (desk handler.new (D.view keeper.new) (F.view flash.new) (K.view sink.new))) }
{
    let mut line = [0u8; 4096];
    match lines.next(source, &mut line) {
        Ok(Next::Line { len }) => ended(handler.line(alloc, &line[..len], keeper, flash, sink)),
        Ok(Next::Long { length }) => ended(as_line_fault(handler.long(length, sink))),
        Ok(Next::End) => Some(concluded(handler.end(sink))),
        Err(LinesFault::Read) => Some(Status::Read),
        Err(LinesFault::Budget) => Some(Status::Long),
    }
}

// The status with which a run ends where a line failed.
fn ended(outcome: Result<(), LineFault>) -> Option<Status>
    ensures { result ≡ ended_by outcome }
{
    match outcome {
        Ok(()) => None,
        Err(LineFault::Write) => Some(Status::Write),
        Err(LineFault::Keep) => Some(Status::Keep),
        Err(LineFault::Memory) => Some(Status::Memory),
    }
}

// The status with which a run ends behind its last word.
fn concluded(outcome: Result<(), WriteFault>) -> Status
    ensures { result ≡ concluded_by outcome }
{
    match outcome {
        Ok(()) => Status::Ok,
        Err(WriteFault) => Status::Write,
    }
}

/// Hands the lines of the source to what handles them, each one before the next is taken, and behind the last one of an input that
/// has ended lets it have its last word.
///
/// It ends with `Ok` only where the source has told its end, every line was handled, and the last word was said; with `Read`,
/// `Write` or `Keep` where source, sink or keeper failed, once, and counted it, and no other of them has a fault; with `Long`
/// exactly where 2^40 bytes were handed out, the source hasn't told its end, and every whole line was handled; with `Memory`
/// where a line found none. It never ends with `Usage`. Where a line failed, less than a block of 8,192 bytes was handed out
/// behind it.
///
/// The caller sees to it that what handles the lines is ready.
pub fn run_lines<H: LineHandler, S: Source, K: Sink, D: Keeper, F: Flash>(
    alloc: Global,
    handler: &mut H,
    source: &mut S,
    sink: &mut K,
    keeper: &mut D,
    flash: &mut F,
) -> Status
    requires is_ready { H.is_ready handler.old (F.view flash.old) }
    ensures usage { result ≢ Status.Usage }
    ensures keeper { H.spares_keeper handler.old → keeper.new ≡ keeper.old }
    ensures flash { H.spares_flash handler.old → flash.new ≡ flash.old }
    ensures ended { result ≡ Status.Ok → (S.view source.new).ended ≡ true }
    ensures causes { Causes (Some result)
        (outside (S.view source.old) (K.view sink.old) (D.view keeper.old) (F.view flash.old))
        (outside (S.view source.new) (K.view sink.new) (D.view keeper.new) (F.view flash.new)) }
    ensures long { IsLong result (S.view source.old) (S.view source.new) }
    ensures read { Reads result (S.view source.old) (S.view source.new) }
    ensures loops { Loops H.handles H.concludes result (S.view source.old) (S.view source.new)
        (desk handler.old (D.view keeper.old) (F.view flash.old) (K.view sink.old))
        (desk handler.new (D.view keeper.new) (F.view flash.new) (K.view sink.new)) }
{
    let mut lines = Lines::new(BUDGET);
    'turns: loop {
        match turn(alloc, &mut lines, handler, source, sink, keeper, flash) {
            None => {}
            Some(status) => return status,
        }
    }
}
