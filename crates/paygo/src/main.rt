// The program `paygo`: its words are run over standard input, standard output, a database of the shop and a file as the
// flash, of two banks or of more.
#![tactic(auto)]

ghost use Rattle.std.specs.Prelude.{◌≡◌, ◌⊎◌, map, drop, IfOk, IfErr, OnOk};
ghost use Rattle.std.specs.String.{string_bytes};
ghost use Rattle.std.specs.IoError.{error_kind};
ghost use Rattle.std.specs.Io.KnownBytes.{Appends};
ghost use Rattle.std.specs.Process.{exit_status};
ghost use Rattle.paygo.specs.Exit.{exit_of, line_for, ended_by};
ghost use Rattle.paygo.specs.Paths.{path_of_tables, paths_with, paths_before, paths_of, reads_alone_of};

use bank_ring::Ring;
use command_words::{HELP, Told, VERSION, asks_of_program, wrong_word};
use keeper_sqlite::SqliteKeeper;
use paygo_cli::{Status, banks_in, message, run};
use paygo_ports::Flash;
use sip_lanes::Lanes;
use std::alloc::{AllocError, Global};
use std::fs::File;
use std::io::{ErrorKind, Write};
use std::process::ExitCode;
use std::{env, fs, io};
use system_ports::{FlashFile, MediaFile, StdinSource, StdoutSink};

fn main(rt: HostRuntime) -> ExitCode {
    let _input = reserve(&rt);
    let _output = reserve(&rt);
    let _error = reserve(&rt);
    let status = ended(run_args(&rt));
    let _ = tell(&mut rt.stderr(), status);
    exit(status)
}

// What takes the lowest free descriptor. Three of them, kept open, see to it that no file of the run gets the
// descriptor of a standard stream that the program was started without, and no answer is written into the flash. A
// folder is neither read nor written as a file is, so such a stream fails.
fn reserve(rt: &HostRuntime) -> Option<File> {
    fs::open(rt, "/").ok()
}

// How the run ended. An error says that its words could not be taken.
fn ended(outcome: io::Result<Status>) -> Status
    ensures ran { IfOk outcome (λ status. result ≡ status) }
    ensures untaken { IfErr outcome (λ e. result ≡ ended_by (error_kind e)) }
{
    match outcome {
        Ok(status) => status,
        Err(e) if e.kind() == ErrorKind::OutOfMemory => Status::Memory,
        Err(_) => Status::Usage,
    }
}

// Writes what is said of this status, as a line.
fn tell<W: Write>(errors: &mut W, status: Status) -> io::Result<()>
    ensures { OnOk result (Appends (W.contents errors.old) (W.contents errors.new) (line_for status)) }
{
    match message(status) {
        Some(text) => {
            errors.write_all(text.as_bytes())?;
            errors.write_all(b"\n")
        }
        None => Ok(()),
    }
}

// What `main` hands out for this status.
fn exit(status: Status) -> ExitCode
    ensures { exit_status result ≡ exit_of status }
{
    ExitCode::from(code(status))
}

// The exit status of the program.
fn code(status: Status) -> u8
    ensures { result ≡ exit_of status }
{
    match status {
        Status::Ok => 0,
        Status::Usage => 2,
        Status::Read => 3,
        Status::Write => 4,
        Status::Keep => 5,
        Status::Memory => 6,
        Status::Long => 7,
    }
}

// Runs the words of the command line. An error says that they aren't text, or that there was no memory for them.
fn run_args(rt: &HostRuntime) -> io::Result<Status> {
    let mut args = Vec::new(rt.alloc());
    for arg in env::args(rt)? {
        args.push(arg)?;
    }
    let words = words_of(rt.alloc(), args.as_slice())?;
    match asks_of_program(words.as_slice()) {
        Some(asked) => Ok(answer(&mut rt.stdout(), asked)),
        None => {
            let status = run_words(rt, words.as_slice())?;
            tell_wrong(rt, words.as_slice(), status);
            Ok(status)
        }
    }
}

// Writes what is asked of the program itself.
fn answer<W: Write>(output: &mut W, asked: Told) -> Status
    ensures { (result ≡ Status.Ok) ⊎ (result ≡ Status.Write) }
{
    match answer_all(output, asked) {
        Ok(()) => Status::Ok,
        Err(_) => Status::Write,
    }
}

// The same, or the first fault of the output.
fn answer_all<W: Write>(output: &mut W, asked: Told) -> io::Result<()> {
    match asked {
        Told::Help => output.write_all(HELP.as_bytes())?,
        Told::Version => {
            output.write_all(VERSION.as_bytes())?;
            output.write_all(b"\n")?;
        }
    }
    output.flush()
}

// Where the words are of no form, writes which of them is wrong, or missing, counted from 1.
fn tell_wrong(rt: &HostRuntime, words: &[&str], status: Status) {
    if status != Status::Usage {
        return;
    }
    if let Some(place) = wrong_word(words) {
        if place < words.len() {
            let word = words[place];
            let _ = eprintln!(rt; "paygo: word {} is wrong: {word}", place + 1);
        } else {
            let _ = eprintln!(rt; "paygo: word {} is missing", place.saturating_add(1));
        }
    }
}

// The words behind the program's own name.
fn words_of<'a>(alloc: Global, args: &'a [String]) -> Result<Vec<&'a str>, AllocError>
    ensures { IfOk result (λ words. map (λ word. word.now) words.items ≡ drop 1 (map string_bytes args.now)) }
{
    let mut words = Vec::new(alloc);
    if let [_, behind @ ..] = args {
        for word in behind {
            words.push(word.as_str())?;
        }
    }
    Ok(words)
}

// The paths of the database and of the flash file that the words name: `device FLASH` and `ring FLASH BANKS` name a
// flash, `bench DB FLASH` both, and every other form of two words a database, as `advise DB SERIAL FLOOR` does. What
// they don't name has an empty path, and is never called.
fn paths<'a>(words: &[&'a str]) -> (&'a str, &'a str)
    ensures { (result.0.now, result.1.now) ≡ paths_of (map (λ word. word.now) words.now) }
{
    match words {
        [word, file] => path_with(word, file),
        [word, first, second] => paths_before(word, first, second),
        [word, first, _, _] => path_of_tables(word, first),
        _ => ("", ""),
    }
}

// `advise DB SERIAL FLOOR`, or words that name no file.
fn path_of_tables<'a>(word: &str, first: &'a str) -> (&'a str, &'a str)
    ensures { (result.0.now, result.1.now) ≡ path_of_tables word.now first.now }
{
    match word {
        "advise" => (first, ""),
        _ => ("", ""),
    }
}

// `ring FLASH BANKS`, or another word, a database and a flash.
fn paths_before<'a>(word: &str, first: &'a str, second: &'a str) -> (&'a str, &'a str)
    ensures { (result.0.now, result.1.now) ≡ paths_before word.now first.now second.now }
{
    match word {
        "ring" => ("", first),
        _ => (first, second),
    }
}

// `device FLASH`, or another word and a database.
fn path_with<'a>(word: &str, file: &'a str) -> (&'a str, &'a str)
    ensures { (result.0.now, result.1.now) ≡ paths_with word.now file.now }
{
    match word {
        "device" => ("", file),
        _ => (file, ""),
    }
}

// Whether the words only read their database: `audit DB`, `sound DB` or `advise DB SERIAL FLOOR`.
fn reads_alone(words: &[&str]) -> bool
    ensures { result ≡ reads_alone_of (map (λ word. word.now) words.now) }
{
    match words {
        [word, _] => *word == "audit" || *word == "sound",
        [word, _, _, _] => *word == "advise",
        _ => false,
    }
}

// The keeper of the database at this path. It only reads where the words do, and then neither makes nor writes a file.
fn keeper_for<'a>(
    rt: &'a HostRuntime,
    words: &[&str],
    tables: &str,
) -> Result<SqliteKeeper<'a>, AllocError> {
    let path = String::from_str(rt.alloc(), tables)?;
    if reads_alone(words) {
        Ok(SqliteKeeper::reading(rt, path))
    } else {
        Ok(SqliteKeeper::at(rt, path))
    }
}

// Runs these words over the flash that they name: a file of so many banks where they are `ring FLASH BANKS`, else one
// of two.
fn run_words(rt: &HostRuntime, words: &[&str]) -> io::Result<Status> {
    let (tables, flash) = paths(words);
    let flash = String::from_str(rt.alloc(), flash)?;
    match banks_in(words) {
        Some(banks) => run_over(
            rt,
            words,
            tables,
            Ring::over(MediaFile::at(rt, flash, banks)),
        ),
        None => run_over(rt, words, tables, FlashFile::at(rt, flash)),
    }
}

// Runs these words over this flash. Why the database failed is told on standard error. At the end it is closed, so that
// its file stands alone.
fn run_over<F: Flash + Drop>(
    rt: &HostRuntime,
    words: &[&str],
    tables: &str,
    mut flash: F,
) -> io::Result<Status> {
    let mut source = StdinSource::new(rt);
    let mut sink = StdoutSink::new(rt);
    let mut keeper = keeper_for(rt, words, tables)?;
    let status = run::<Lanes, StdinSource<HostRuntime>, StdoutSink<HostRuntime>, SqliteKeeper, F>(
        rt.alloc(),
        words,
        &mut source,
        &mut sink,
        &mut keeper,
        &mut flash,
    );
    tell_cause(rt, tables, &keeper);
    let _ = keeper.close();
    Ok(status)
}

// Writes why the database at this path failed, as a line, where it did.
fn tell_cause(rt: &HostRuntime, tables: &str, keeper: &SqliteKeeper<'_>) {
    if let Some(cause) = keeper.trouble() {
        let _ = eprintln!(rt; "paygo: {tables}: {cause}");
    }
}
