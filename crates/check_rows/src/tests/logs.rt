// The log of a run: each line that was typed, and behind it its answers.
use paygo_spec::Memory;
use std::alloc::Global;
use std::process::Abort;

/// Whether this line of a log is an answer.
pub(super) fn is_answer(line: &str) -> bool {
    line.starts_with("< ")
}

/// How many answers this line has on a device that is on, or off, where none of them is `down`. The line is of a form;
/// the forms are those of the stories.
fn most_answers(line: &str, is_on: bool) -> usize {
    if line.starts_with("{") || line == "power" || line == "walk" {
        return 1;
    }
    if !is_on {
        return 0;
    }
    if line.starts_with("keys ") {
        return line.as_bytes().iter().filter(|c| **c == b'#').count();
    }
    1
}

/// Puts one line more, with its mark, behind a log.
pub(super) fn put(alloc: Global, log: &mut String, mark: &str, line: &str) -> Result<(), Memory> {
    let marked = format!(in alloc; "{mark}{line}\n").map_err(|_| Memory)?;
    log.push_str(marked.as_str()).map_err(|_| Memory)
}

/// The log of these lines and all their answers. Behind a `down` the device is off up to the next `power`.
pub(super) fn log_of(
    rt: &impl Abort,
    alloc: Global,
    input: &str,
    answers: &str,
) -> Result<String, Memory> {
    let mut log = String::new(alloc);
    let mut rest = answers.lines();
    let mut is_on = false;
    for line in input.lines() {
        put(alloc, &mut log, "> ", line)?;
        for _ in 0..most_answers(line, is_on) {
            let answer = rest.next().expect(rt, "an answer");
            put(alloc, &mut log, "< ", answer)?;
            if answer == "down" {
                is_on = false;
                break;
            }
            if line == "power" {
                is_on = true;
            }
        }
    }
    assert!(rt; rest.next().is_none(), "{log}");
    Ok(log)
}
