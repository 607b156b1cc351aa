// Bytes out of a reader, bytes into a writer, and places in a file: what the adapters do, said by what the kit's readers,
// writers and seekers tell of themselves.
ghost use Rattle.std.specs.Prelude.{◌≡◌, ℕ, ◌+◌, ◌*◌, ◌<◌, ◌≤◌, List, length, take, drop, replicate, Some, IfOk, IfSome, OnOk};
ghost use Rattle.std.specs.Int.{w64, from_be_bytes, to_be_bytes};
ghost use Rattle.std.specs.Io.KnownBytes.{Appends, Keeps, ReadConsumes, WriteAppends};
ghost use Rattle.std.specs.Io.Seek.{MovesTo};
ghost use Rattle.system_ports.specs.Places.{NextWord, ReadsFromThere};

use std::io;
use std::io::{ErrorKind, Read, Seek, SeekFrom, Write};

// How often a read is tried that a signal interrupted.
const TRIES: u32 = 1000;

// The byte of the file at which the word at this place starts.
pub(crate) fn word_start(at: u16) -> u64
    ensures { result ≡ 8 * at }
{
    8 * u64::from(at)
}

// The byte of the file at which this bank starts.
pub(crate) fn bank_start(bank: u16) -> u64
    ensures { result ≡ 4096 * bank }
{
    4096 * u64::from(bank)
}

// One read of the next bytes, tried again where a signal interrupted it.
pub(crate) fn read_some<F: Read>(reader: &mut F, buf: &mut [u8]) -> io::Result<usize>
    ensures bound { IfOk result (λ n. n ≤ length buf.new) }
    ensures next { ReadConsumes (F.remaining reader.old) (F.remaining reader.new) result buf.new }
{
    for _ in 0..TRIES {
        match reader.read(buf) {
            Err(e) if e.kind() == ErrorKind::Interrupted => {}
            outcome => return outcome,
        }
    }
    Err(io::Error::from(ErrorKind::Interrupted))
}

// One write of some of the first of these bytes. A write that takes nothing of a piece that isn't empty is an error.
pub(crate) fn write_some<F: Write>(writer: &mut F, bytes: &[u8]) -> io::Result<usize>
    ensures bound { IfOk result (λ n. n ≤ length bytes.now) }
    ensures some { IfOk result (λ n. 0 < length bytes.now → 0 < n) }
    ensures appended { WriteAppends (F.contents writer.old) (F.contents writer.new) result bytes.now }
{
    let n = writer.write(bytes)?;
    if n == 0 && !bytes.is_empty() {
        return Err(io::Error::from(ErrorKind::WriteZero));
    }
    Ok(n)
}

// Writes all of these bytes.
pub(crate) fn write_whole<F: Write>(writer: &mut F, bytes: &[u8]) -> io::Result<()>
    ensures { OnOk result (Appends (F.contents writer.old) (F.contents writer.new) bytes.now) }
{
    writer.write_all(bytes)
}

// Writes a word as eight bytes, the most significant first.
pub(crate) fn write_word<F: Write>(writer: &mut F, word: u64) -> io::Result<()>
    ensures { OnOk result (Appends (F.contents writer.old) (F.contents writer.new)
        (to_be_bytes w64 word)) }
{
    write_whole(writer, &word.to_be_bytes())
}

// Writes a bank whose words are all erased: 4,096 bytes with all bits 1.
pub(crate) fn write_erased<F: Write>(writer: &mut F) -> io::Result<()>
    ensures { OnOk result (Appends (F.contents writer.old) (F.contents writer.new)
        (replicate 4096 255)) }
{
    write_whole(writer, &[0xff; 4096])
}

// Goes to this byte. A seek that ends elsewhere is an error.
pub(crate) fn go_to<F: Seek>(file: &mut F, start: u64) -> io::Result<()>
    ensures moves { MovesTo (F.stream_position file.old) (F.stream_position file.new) start result }
    ensures bytes { Keeps (F.stream_bytes file.old) (F.stream_bytes file.new) }
{
    file.seek(SeekFrom::Start(start))?;
    Ok(())
}

// The next eight bytes as a word, the most significant first.
pub(crate) fn next_word<F: Read>(reader: &mut F) -> io::Result<u64>
    ensures { IfOk result (λ word. NextWord word (F.remaining reader.old) (F.remaining reader.new)) }
{
    let mut bytes = [0; 8];
    reader.read_exact(&mut bytes)?;
    Ok(u64::from_be_bytes(bytes))
}

// The word that stands at the place `at` of a file.
pub(crate) fn word_at<F: Read + Seek>(file: &mut F, at: u16) -> io::Result<u64>
    ensures { ReadsFromThere F.remaining F.stream_position F.stream_bytes →
        (all : List ℕ) (here : ℕ) → F.stream_bytes file.old ≡ Some all → F.stream_position file.old ≡ Some here →
        IfOk result (λ word. word ≡ from_be_bytes w64 (take 8 (drop (8 * at) all))) }
{
    go_to(file, word_start(at))?;
    next_word(file)
}
