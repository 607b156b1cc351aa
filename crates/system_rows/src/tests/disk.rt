// A made-up system with one file: it keeps what was written and what was synced, notes each call, lets the call of a number
// fail, and may give and take few bytes at a time.
ghost use Rattle.std.specs.Prelude.{◌≤◌, length, IsErr};

use std::alloc::Allocator;
use std::cell::Cell;
use std::fs::{Files, Metadata, OpenFile, OpenOptions};
use std::io;
use std::io::{ErrorKind, Read, Seek, SeekFrom, Write};
use system_ports::Locks;

// The path of the file where a test names no other one.
pub(super) const PATH: &str = "shed/flash";

// The names that a disk knows: the path of the file, the name under which it is made, and their folder.
#[derive(Clone, Copy)]
pub(super) struct Names {
    pub(super) file: &'static str,
    pub(super) beside: &'static str,
    pub(super) folder: &'static str,
}

const SHED: Names = Names {
    file: PATH,
    beside: "shed/flash.new",
    folder: "shed",
};

// How many bytes a file has at most.
const ROOM: usize = 12_300;

// How many calls are noted.
const NOTED: usize = 40;

// The bytes of a file.
#[derive(Clone, Copy)]
pub(super) struct Image {
    bytes: [u8; ROOM],
    len: usize,
    ghost within: { len ≤ 12300 },
}

impl Image {
    pub(super) fn empty() -> Image {
        Image {
            bytes: [0; ROOM],
            len: 0,
        }
    }

    // So many bytes of this value.
    pub(super) fn of(byte: u8, len: usize) -> Image {
        Image {
            bytes: [byte; ROOM],
            len: len.min(ROOM),
        }
    }

    pub(super) fn bytes(&self) -> &[u8] {
        &self.bytes[..self.len]
    }

    // Takes the first of these bytes to this place, as many as fit.
    fn put(&mut self, at: usize, bytes: &[u8]) -> usize
        ensures { result ≤ length bytes.now }
    {
        if at > ROOM {
            return 0;
        }
        let n = bytes.len().min(ROOM - at);
        self.bytes[at..at + n].copy_from_slice(&bytes[..n]);
        self.len = self.len.max(at + n);
        n
    }
}

// The calls so far, a letter each.
#[derive(Clone, Copy)]
struct Notes {
    letters: [u8; NOTED],
    count: usize,
    ghost within: { count ≤ 40 },
}

// A file as it was written, and as the disk has it.
#[derive(Drop)]
struct Kept {
    written: Cell<Option<Image>>,
    synced: Cell<Option<Image>>,
}

impl Kept {
    fn new(image: Option<Image>) -> Kept {
        Kept {
            written: Cell::new(image),
            synced: Cell::new(image),
        }
    }
}

#[derive(Drop)]
pub(super) struct Disk {
    file: Kept,
    beside: Kept,
    notes: Cell<Notes>,
    calls: Cell<u64>,
    fails: Cell<u64>,
    most: Cell<usize>,
    held: Cell<bool>,
    names: Names,
    stands: Stands,
}

// What stands at the path.
#[derive(Clone, Copy, PartialEq, Eq)]
enum Stands {
    // The file, or nothing.
    File,
    // A link to the file, or to nothing.
    Link,
    Folder,
}

// Which of the names a call is about.
#[derive(Clone, Copy, PartialEq, Eq)]
pub(super) enum Name {
    File,
    Beside,
    Folder,
}

impl Disk {
    // A disk with this file at the path, or none.
    pub(super) fn new(image: Option<Image>) -> Disk {
        Disk::with_names(SHED, image)
    }

    // The same under other names.
    pub(super) fn with_names(names: Names, image: Option<Image>) -> Disk {
        Disk {
            file: Kept::new(image),
            beside: Kept::new(None),
            notes: Cell::new(no_notes()),
            calls: Cell::new(0),
            fails: Cell::new(0),
            most: Cell::new(usize::MAX),
            held: Cell::new(false),
            names,
            stands: Stands::File,
        }
    }

    // A disk with a folder at the path.
    pub(super) fn with_folder() -> Disk {
        let mut disk = Disk::new(None);
        disk.stands = Stands::Folder;
        disk
    }

    // A disk with a link at the path, which leads to this file, or to nothing.
    pub(super) fn with_link(image: Option<Image>) -> Disk {
        let mut disk = Disk::new(image);
        disk.stands = Stands::Link;
        disk
    }

    // Lets the call of this number fail, counted from the next one. 0 lets none fail.
    pub(super) fn fail(&self, call: u64) {
        self.calls.set(0);
        self.fails.set(call);
    }

    // Whether the call that was to fail came.
    pub(super) fn has_failed(&self) -> bool {
        let fails = self.fails.get();
        0 < fails && fails <= self.calls.get()
    }

    // How many calls came since the last plan.
    pub(super) fn calls(&self) -> u64 {
        self.calls.get()
    }

    // From now on a call takes or gives at most so many bytes.
    pub(super) fn most(&self, n: usize) {
        self.most.set(n);
    }

    // Whether another run holds the file from now on.
    pub(super) fn hold(&self, held: bool) {
        self.held.set(held);
    }

    // The letters of the calls since this was last asked: (s)ymlink_metadata of the path, (m)etadata of what it leads to,
    // (n)ew file, (o)pen, (f)older opened, (c)laim of the open file, (l)ength of it, see(k), (g)et, (w)rite, sync_(a)ll,
    // sync_(d)ata, (r)ename.
    pub(super) fn notes_were(&self, want: &[u8]) -> bool {
        let notes = self.notes.get();
        self.notes.set(no_notes());
        notes.letters[..notes.count] == want[..]
    }

    // Puts another file in the place of what stands at the path.
    pub(super) fn replace(&self, image: Image) {
        self.file.written.set(Some(image));
        self.file.synced.set(Some(image));
    }

    pub(super) fn written(&self) -> Image {
        self.file.written.get().unwrap_or(Image::empty())
    }

    pub(super) fn synced(&self) -> Image {
        self.file.synced.get().unwrap_or(Image::empty())
    }

    fn note(&self, letter: u8) -> io::Result<()> {
        let mut notes = self.notes.get();
        if notes.count < NOTED {
            notes.letters[notes.count] = letter;
            notes.count += 1;
        }
        self.notes.set(notes);
        self.calls.set(self.calls.get().saturating_add(1));
        if self.fails.get() == self.calls.get() {
            return Err(io::Error::from(ErrorKind::Other));
        }
        Ok(())
    }

    fn kept(&self, name: Name) -> &Kept {
        match name {
            Name::Beside => &self.beside,
            _ => &self.file,
        }
    }

    fn named(&self, path: &str) -> Option<Name> {
        if path == self.names.file {
            Some(Name::File)
        } else if path == self.names.beside {
            Some(Name::Beside)
        } else if path == self.names.folder {
            Some(Name::Folder)
        } else {
            None
        }
    }

    // What is known of the file that the path leads to.
    fn metadata_of_file(&self) -> io::Result<Metadata> {
        match self.file.written.get() {
            Some(image) => Ok(Metadata::of_file(image.len as u64)),
            None => no_such(),
        }
    }
}

fn no_notes() -> Notes {
    Notes {
        letters: [0; NOTED],
        count: 0,
    }
}

fn no_such<T>() -> io::Result<T>
    ensures { IsErr result }
{
    Err(io::Error::from(ErrorKind::NotFound))
}

fn unused<T>() -> io::Result<T> {
    Err(io::Error::from(ErrorKind::Unsupported))
}

// The disk as a runtime.
#[derive(Clone, Copy)]
pub(super) struct System<'d>(pub(super) &'d Disk);

// An open file of it.
#[derive(Drop)]
pub(super) struct Opened<'d> {
    disk: &'d Disk,
    name: Name,
    at: usize,
}

impl Read for Opened<'_> {
    fn read(&mut self, buf: &mut [u8]) -> io::Result<usize> {
        self.disk.note(b'g')?;
        let Some(image) = self.disk.kept(self.name).written.get() else {
            return Ok(0);
        };
        let left = image.bytes().get(self.at..).unwrap_or(&[]);
        let n = left.len().min(buf.len()).min(self.disk.most.get());
        buf[..n].copy_from_slice(&left[..n]);
        self.at = self.at.saturating_add(n);
        Ok(n)
    }
}

impl Write for Opened<'_> {
    fn write(&mut self, bytes: &[u8]) -> io::Result<usize> {
        self.disk.note(b'w')?;
        let kept = self.disk.kept(self.name);
        let Some(mut image) = kept.written.get() else {
            return no_such();
        };
        let n = image.put(self.at, &bytes[..bytes.len().min(self.disk.most.get())]);
        kept.written.set(Some(image));
        self.at = self.at.saturating_add(n);
        Ok(n)
    }

    fn flush(&mut self) -> io::Result<()> {
        Ok(())
    }
}

impl Seek for Opened<'_> {
    fn seek(&mut self, to: SeekFrom) -> io::Result<u64> {
        self.disk.note(b'k')?;
        match to {
            SeekFrom::Start(at) => {
                self.at = at as usize;
                Ok(at)
            }
            _ => unused(),
        }
    }
}

impl OpenFile for Opened<'_> {
    fn metadata(&self) -> io::Result<Metadata> {
        self.disk.note(b'l')?;
        match self.disk.kept(self.name).written.get() {
            Some(image) => Ok(Metadata::of_file(image.len as u64)),
            None => no_such(),
        }
    }

    fn set_len(&self, _size: u64) -> io::Result<()> {
        unused()
    }

    fn sync_all(&self) -> io::Result<()> {
        self.disk.note(b'a')?;
        let kept = self.disk.kept(self.name);
        kept.synced.set(kept.written.get());
        Ok(())
    }

    fn sync_data(&self) -> io::Result<()> {
        self.disk.note(b'd')?;
        let kept = self.disk.kept(self.name);
        kept.synced.set(kept.written.get());
        Ok(())
    }
}

impl<'d> Files for System<'d> {
    type File = Opened<'d>;

    type Dir = Opened<'d>;

    fn open_file(&self, how: &OpenOptions, path: &str) -> io::Result<Opened<'d>> {
        let Some(name) = self.0.named(path) else {
            return no_such();
        };
        let kept = self.0.kept(name);
        if name == Name::Folder {
            self.0.note(b'f')?;
        } else if how.asks_create() {
            self.0.note(b'n')?;
            if kept.written.get().is_none() || how.asks_truncate() {
                kept.written.set(Some(Image::empty()));
            }
        } else {
            self.0.note(b'o')?;
            if kept.written.get().is_none() || !how.asks_read() || !how.asks_write() {
                return no_such();
            }
        }
        Ok(Opened {
            disk: self.0,
            name,
            at: 0,
        })
    }

    fn open_dir(&self, _path: &str) -> io::Result<Opened<'d>> {
        unused()
    }

    // Of a link it tells what the link leads to.
    fn metadata(&self, path: &str) -> io::Result<Metadata> {
        self.0.note(b'm')?;
        if self.0.named(path) != Some(Name::File) {
            return no_such();
        }
        match self.0.stands {
            Stands::Folder => Ok(Metadata::of_dir()),
            _ => self.0.metadata_of_file(),
        }
    }

    // Of a link it tells that it is one. The links of this disk have the length of a path.
    fn symlink_metadata(&self, path: &str) -> io::Result<Metadata> {
        self.0.note(b's')?;
        if self.0.named(path) != Some(Name::File) {
            return no_such();
        }
        match self.0.stands {
            Stands::Folder => Ok(Metadata::of_dir()),
            Stands::Link => Ok(Metadata::of_symlink(10)),
            Stands::File => self.0.metadata_of_file(),
        }
    }

    fn copy(&self, _from: &str, _to: &str) -> io::Result<u64> {
        unused()
    }

    // What was synced of the file that is renamed is what the disk has under its new name.
    fn rename(&self, from: &str, to: &str) -> io::Result<()> {
        self.0.note(b'r')?;
        if self.0.named(from) != Some(Name::Beside) || self.0.named(to) != Some(Name::File) {
            return no_such();
        }
        self.0.file.written.set(self.0.beside.written.get());
        self.0.file.synced.set(self.0.beside.synced.get());
        self.0.beside.written.set(None);
        self.0.beside.synced.set(None);
        Ok(())
    }

    fn remove_file(&self, _path: &str) -> io::Result<()> {
        unused()
    }

    fn create_dir(&self, _path: &str) -> io::Result<()> {
        unused()
    }

    fn remove_dir(&self, _path: &str) -> io::Result<()> {
        unused()
    }

    fn remove_dir_all<B: Allocator>(&self, _alloc: B, _path: &str) -> io::Result<()> {
        unused()
    }
}

impl Locks for System<'_> {
    fn claim(&self, file: &Self::File) -> io::Result<()> {
        file.disk.note(b'c')?;
        if file.disk.held.get() {
            return Err(io::Error::from(ErrorKind::WouldBlock));
        }
        Ok(())
    }
}
