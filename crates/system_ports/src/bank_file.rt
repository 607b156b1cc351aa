// Banks of words in a file. What the system does is trusted: no clause can say which bytes a file holds.
ghost use Rattle.std.specs.Prelude.{◌≡◌, ◌↔◌, ◌+◌, ◌≤◌, ◌++◌, true, false, IfOk, OnOk, OnErr, IsOk, IsErr, codes, length};
ghost use Rattle.paygo_spec.specs.Faults.{Counted};
ghost use Rattle.system_ports.specs.Folders.{folder_of};

use crate::bytes::{bank_start, go_to, word_at, word_start, write_erased, write_whole, write_word};
use crate::locks::Locks;
use crate::settling::settle;
use paygo_ports::FlashFault;
use std::fs::{OpenFile, OpenOptions, Permissions};
use std::io::{ErrorKind, Write};
use std::os::unix::fs::{OpenOptionsExt, PermissionsExt};
use std::rt::Files;
use std::{fs, io, str};

// How many bytes a bank has in the file: 512 words of eight bytes.
const BANK_BYTES: usize = 4096;

// How many bytes the file has at most: those of 16 banks.
const MOST_BYTES: usize = 65_536;

// How many bytes a path has at most, the end of its new name included: what systems take.
const LONGEST: usize = 4096;

// What stands behind the path while the file is made.
const NEW: &str = ".new";

// Banks of 512 words in the file at a path: the word at the place `at` of them all stands at byte 8 * `at`, most
// significant byte first. How it is opened, made and written is told at `FlashFile`.
#[derive(Drop)]
pub(crate) struct BankFile<'a, R: Locks> {
    rt: &'a R,
    path: String,
    pub(crate) banks: u16,
    file: Option<R::File>,
    pub(crate) up: bool,
    pub(crate) faults: u64,
    ghost most: { banks ≤ 16 },
}

// Whether a flash is still to be made at this path: nothing stands there, or an empty file. A link is something.
fn is_unmade<R: Files>(rt: &R, path: &str) -> io::Result<bool> {
    match fs::symlink_metadata(rt, path) {
        Ok(metadata) => Ok(metadata.is_file() && metadata.len() == 0),
        Err(e) if e.kind() == ErrorKind::NotFound => Ok(true),
        Err(e) => Err(e),
    }
}

// One text and behind it another, in the front of this buffer.
fn joined<'b>(front: &str, back: &str, buf: &'b mut [u8]) -> &'b [u8]
    requires { length front.now + length back.now ≤ length buf.old }
    ensures { result.now ≡ front.now ++ back.now }
{
    let length = front.len();
    let end = length + back.len();
    buf[..length].copy_from_slice(front.as_bytes());
    buf[length..end].copy_from_slice(back.as_bytes());
    &buf[..end]
}

// The path with `.new` behind it, in this buffer. An error says that the path is empty, or too long for that.
pub(crate) fn new_path<'b>(path: &str, buf: &'b mut [u8; LONGEST]) -> io::Result<&'b str>
    ensures beside { IfOk result (λ text. text.now ≡ path.now ++ codes ".new") }
    ensures fits { IsOk result ↔ ((1 ≤ length path.now) × (length path.now ≤ 4092)) }
{
    if path.is_empty() || path.len() > LONGEST - NEW.len() {
        return Err(io::Error::from(ErrorKind::InvalidFilename));
    }
    match str::from_utf8(joined(path, NEW, buf)) {
        Ok(text) => Ok(text),
        Err(_) => Err(io::Error::from(ErrorKind::InvalidFilename)),
    }
}

// The folder that holds what stands at this path.
fn folder(path: &str) -> &str
    ensures { result.now ≡ folder_of path.now }
{
    match path.rsplit_once('/') {
        Some((folder, _)) if !folder.is_empty() => folder,
        Some(_) => "/",
        None => ".",
    }
}

// Waits until the disk has the names in the folder of this path.
fn sync_folder<R: Files>(rt: &R, path: &str) -> io::Result<()> {
    fs::open(rt, folder(path))?.sync_all()
}

// Makes an empty file at this path, also out of what a power cut left there. Its owner alone may read and write it, since
// it is going to hold a device's key; where a file has no such modes, it is made without one.
fn make_own<R: Files>(rt: &R, path: &str) -> io::Result<R::File> {
    let file = OpenOptions::new()
        .write(true)
        .create(true)
        .truncate(true)
        .mode(0o600)
        .open(rt, path)?;
    let _ = file.set_permissions(Permissions::from_mode(0o600));
    Ok(file)
}

// Makes a file of so many bytes with all bits 1, whole or not at all.
fn make_file<R: Files>(rt: &R, path: &str, bytes: usize) -> io::Result<()>
    requires { bytes ≤ 65536 }
{
    let mut buf = [0; LONGEST];
    let beside = new_path(path, &mut buf)?;
    let mut file = make_own(rt, beside)?;
    write_whole(&mut file, &[0xff; MOST_BYTES][..bytes])?;
    file.sync_all()?;
    fs::rename(rt, beside, path)?;
    sync_folder(rt, path)
}

// Opens the file of so many bytes, and makes it first where it is absent or empty. Who has it open holds it alone.
fn open_file<R: Locks>(rt: &R, path: &str, bytes: usize) -> io::Result<R::File>
    requires { bytes ≤ 65536 }
{
    if is_unmade(rt, path)? {
        make_file(rt, path, bytes)?;
    }
    let file = OpenOptions::new().read(true).write(true).open(rt, path)?;
    rt.claim(&file)?;
    if file.metadata()?.len() != bytes as u64 {
        return Err(io::Error::from(ErrorKind::InvalidData));
    }
    Ok(file)
}

impl<'a, R: Locks> BankFile<'a, R> {
    // So many banks, at most 16, in the file at this path. They are up, and nothing is opened yet.
    pub(crate) fn at(rt: &'a R, path: String, banks: u16) -> BankFile<'a, R>
        requires { banks ≤ 16 }
        ensures banks { result.banks ≡ banks }
        ensures up { result.up ≡ true }
        ensures faults { result.faults ≡ 0 }
    {
        BankFile {
            rt,
            path,
            banks,
            file: None,
            up: true,
            faults: 0,
        }
    }

    // The file, opened where it isn't open. Who takes it puts it back where no call of it failed; else it is closed.
    fn take_file(&mut self) -> io::Result<R::File>
        ensures banks { self.new.banks ≡ self.old.banks }
        ensures up { self.new.up ≡ self.old.up }
        ensures faults { self.new.faults ≡ self.old.faults }
    {
        match self.file.take() {
            Some(file) => Ok(file),
            None => open_file(
                self.rt,
                self.path.as_str(),
                usize::from(self.banks) * BANK_BYTES,
            ),
        }
    }

    // Opens the file where it isn't open.
    pub(crate) fn try_open(&mut self) -> io::Result<()>
        ensures banks { self.new.banks ≡ self.old.banks }
        ensures up { self.new.up ≡ self.old.up }
        ensures faults { self.new.faults ≡ self.old.faults }
    {
        let file = self.take_file()?;
        self.file = Some(file);
        Ok(())
    }

    // The word at the place `at` of the words of all banks.
    pub(crate) fn try_read(&mut self, at: u16) -> io::Result<u64>
        ensures banks { self.new.banks ≡ self.old.banks }
        ensures up { self.new.up ≡ self.old.up }
        ensures faults { self.new.faults ≡ self.old.faults }
    {
        let mut file = self.take_file()?;
        let word = word_at(&mut file, at)?;
        self.file = Some(file);
        Ok(word)
    }

    // Writes the word, and waits until the disk has it.
    pub(crate) fn try_program(&mut self, at: u16, word: u64) -> io::Result<()>
        ensures banks { self.new.banks ≡ self.old.banks }
        ensures up { self.new.up ≡ self.old.up }
        ensures faults { self.new.faults ≡ self.old.faults }
    {
        let mut file = self.take_file()?;
        go_to(&mut file, word_start(at))?;
        write_word(&mut file, word)?;
        file.sync_data()?;
        self.file = Some(file);
        Ok(())
    }

    // Writes the bank as erased, and waits until the disk has it.
    pub(crate) fn try_erase(&mut self, bank: u16) -> io::Result<()>
        ensures banks { self.new.banks ≡ self.old.banks }
        ensures up { self.new.up ≡ self.old.up }
        ensures faults { self.new.faults ≡ self.old.faults }
    {
        let mut file = self.take_file()?;
        go_to(&mut file, bank_start(bank))?;
        write_erased(&mut file)?;
        file.sync_data()?;
        self.file = Some(file);
        Ok(())
    }

    // What the calls of the file came to. After an error the banks are down, with one fault counted.
    pub(crate) fn settle<T>(&mut self, outcome: io::Result<T>) -> Result<T, FlashFault>
        ensures banks { self.new.banks ≡ self.old.banks }
        ensures given { IfOk outcome (λ value. result ≡ Ok value) }
        ensures stays { OnOk outcome (self.new.up ≡ self.old.up) }
        ensures failed { OnErr outcome (IsErr result) }
        ensures down { OnErr outcome (self.new.up ≡ false) }
        ensures counted { Counted outcome self.old.faults self.new.faults }
    {
        if outcome.is_err() {
            self.up = false;
        }
        settle(outcome, FlashFault, &mut self.faults)
    }
}
