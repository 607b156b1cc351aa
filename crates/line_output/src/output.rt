// Answers written to a sink.
ghost use Rattle.std.specs.Prelude.{◌≡◌, ◌≤◌, ◌++◌, ◌∷◌, [], Some, codes, length};
ghost use Rattle.std.specs.Fmt.{decimal};
ghost use Rattle.std.specs.Option.{option_map};
ghost use Rattle.paygo_spec.specs.Faults.{Counted};
ghost use Rattle.ledger_spec.specs.AnswerText.{text_of_fault};
ghost use Rattle.run_spec.specs.Run.{Said, Did, Told};
ghost use Rattle.run_spec.specs.Text.{line_of as line_of_answer};
ghost use Rattle.line_output.specs.Written.{Wrote};

use device_core::line as line_of;
use ledger_spec::{Answer, TextFault};
use ledger_text::{answer_line, fault_line};
use line_text::Line;
use paygo_ports::{Sink, WriteFault};
use paygo_spec::Reply;

/// Writes all of the bytes.
///
/// # Errors
///
/// `WriteFault` where the sink failed, once, and counted it: fewer bytes than all were written, the first ones.
pub fn write_all<K: Sink>(sink: &mut K, bytes: &[u8]) -> Result<(), WriteFault>
    ensures wrote { Wrote bytes.now result (K.view sink.old) (K.view sink.new) }
    ensures cause { Counted result (K.view sink.old).faults (K.view sink.new).faults }
{
    let mut done = 0;
    while done < bytes.len() {
        match sink.write(&bytes[done..]) {
            Ok(n) => done += n,
            Err(fault) => return Err(fault),
        }
    }
    Ok(())
}

/// Writes a line of at most 511 bytes, and the byte 10 behind it.
///
/// # Errors
///
/// `WriteFault` where the sink failed, once, and counted it: fewer bytes than the line has with its end were written, the first
/// ones.
pub fn write_line<K: Sink>(sink: &mut K, line: Line) -> Result<(), WriteFault>
    requires { length line ≤ 511 }
    ensures wrote { Wrote (line ++ 10 ∷ []) result (K.view sink.old) (K.view sink.new) }
    ensures cause { Counted result (K.view sink.old).faults (K.view sink.new).faults }
{
    let mut whole = line;
    whole.push(b"\n");
    write_all(sink, whole.as_bytes())
}

/// Writes the line of a reply, where there is one.
///
/// # Errors
///
/// `WriteFault` as in [`write_line`].
pub fn write_reply<K: Sink>(sink: &mut K, reply: Option<Reply>) -> Result<(), WriteFault>
    ensures wrote { Wrote (line_of_answer (option_map Told reply)) result (K.view sink.old) (K.view sink.new) }
    ensures cause { Counted result (K.view sink.old).faults (K.view sink.new).faults }
{
    match reply {
        Some(reply) => write_line(sink, line_of(&reply)),
        None => write_all(sink, b""),
    }
}

/// Writes the line of a text of at most 511 bytes.
///
/// # Errors
///
/// `WriteFault` as in [`write_line`].
pub fn write_text<K: Sink>(sink: &mut K, text: &[u8]) -> Result<(), WriteFault>
    requires { length text.now ≤ 511 }
    ensures wrote { Wrote (line_of_answer (Some (Said text.now))) result (K.view sink.old) (K.view sink.new) }
    ensures cause { Counted result (K.view sink.old).faults (K.view sink.new).faults }
{
    let mut line = Line::new();
    line.push(text);
    write_line(sink, line)
}

/// Writes the answer to a line of more than 4,096 bytes: `long`, and how many bytes it has.
///
/// # Errors
///
/// `WriteFault` as in [`write_line`].
pub fn write_long<K: Sink>(sink: &mut K, size: u64) -> Result<(), WriteFault>
    ensures wrote { Wrote (line_of_answer (Some (Said (codes "long " ++ decimal size)))) result (K.view sink.old)
        (K.view sink.new) }
    ensures cause { Counted result (K.view sink.old).faults (K.view sink.new).faults }
{
    let mut text = Line::new();
    text.push(b"long");
    text.push_number(size);
    write_text(sink, text.as_bytes())
}

/// Writes the line of the ledger's answer.
///
/// # Errors
///
/// `WriteFault` as in [`write_line`].
pub fn write_answer<K: Sink>(sink: &mut K, answer: &Answer) -> Result<(), WriteFault>
    ensures wrote { Wrote (line_of_answer (Some (Did answer.now))) result (K.view sink.old) (K.view sink.new) }
    ensures cause { Counted result (K.view sink.old).faults (K.view sink.new).faults }
{
    write_line(sink, answer_line(answer))
}

/// Writes the line that refuses a line of the ledger without a command.
///
/// # Errors
///
/// `WriteFault` as in [`write_line`].
pub fn write_fault<K: Sink>(sink: &mut K, fault: &TextFault) -> Result<(), WriteFault>
    ensures wrote { Wrote (line_of_answer (Some (Said (text_of_fault fault.now)))) result (K.view sink.old)
        (K.view sink.new) }
    ensures cause { Counted result (K.view sink.old).faults (K.view sink.new).faults }
{
    write_line(sink, fault_line(fault))
}
