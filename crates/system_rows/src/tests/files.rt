// The flash in a file, over a made-up system, beside a flash in memory.
ghost use Rattle.std.specs.Prelude.{◌<◌};

use super::disk::{Disk, Image, Names, PATH, System};
use memory_ports::MemFlash;
use paygo_ports::{Flash, FlashFault};
use std::alloc::AllocError;
use std::process::Abort;
use system_ports::FlashFile;

const WORD: u64 = 0x0123_4567_89ab_cdef;

const WHOLE: usize = 8192;

#[derive(Clone, Copy)]
enum Call {
    PowerUp,
    Read(u16),
    Program(u16, u64),
    Erase(u8),
}

// A flash is made, written, erased and written again.
const LIFE: [Call; 10] = [
    Call::PowerUp,
    Call::Read(3),
    Call::Program(3, WORD),
    Call::Program(600, WORD),
    Call::Read(600),
    Call::Erase(0),
    Call::Read(3),
    Call::Program(3, 7),
    Call::Erase(1),
    Call::Read(600),
];

// A flash that is there is written.
const HOUR: [Call; 4] = [
    Call::PowerUp,
    Call::Program(3, WORD),
    Call::Program(600, WORD),
    Call::Read(600),
];

fn ask_file(flash: &mut FlashFile<'_, System<'_>>, call: Call) -> Result<u64, FlashFault> {
    match call {
        Call::PowerUp => flash.power_up().map(|_| 0),
        Call::Read(at) if at < 1024 => flash.read(at),
        Call::Program(at, word) if at < 1024 => flash.program(at, word).map(|_| 0),
        Call::Erase(bank) if bank < 2 => flash.erase(bank).map(|_| 0),
        _ => Err(FlashFault),
    }
}

fn ask_memory(flash: &mut MemFlash, call: Call) -> Result<u64, FlashFault> {
    match call {
        Call::PowerUp => flash.power_up().map(|_| 0),
        Call::Read(at) if at < 1024 => flash.read(at),
        Call::Program(at, word) if at < 1024 => {
            if flash.word(at) != u64::MAX {
                return Err(FlashFault);
            }
            flash.program(at, word).map(|_| 0)
        }
        Call::Erase(bank) if bank < 2 => flash.erase(bank).map(|_| 0),
        _ => Err(FlashFault),
    }
}

// The word of an image at this place, the first byte the most significant.
fn word_in(image: &Image, at: u16) -> Option<u64> {
    let start = 8 * usize::from(at);
    let bytes = image.bytes().get(start..start + 8)?;
    let mut word = 0u64;
    for byte in bytes {
        word = word << 8 | u64::from(*byte);
    }
    Some(word)
}

// Whether a call that failed may leave this word, of which a flash in memory has `before`.
fn may_leave(call: Call, at: u16, before: u64, word: u64) -> bool {
    match call {
        Call::Program(place, new) if place == at => word & new == new,
        Call::Erase(bank) if at / 512 == u16::from(bank) => word & before == before,
        _ => word == before,
    }
}

// Looks that the file is whole and has the words of the flash in memory, but for what a call that failed may leave.
fn compare(rt: &impl Abort, image: &Image, memory: &MemFlash, failed: Option<Call>) {
    assert_eq!(rt; image.bytes().len(), WHOLE);
    for at in 0..1024 {
        let word = word_in(image, at).expect(rt, "a word");
        let before = memory.word(at);
        match failed {
            None => assert_eq!(rt; word, before, "at {at}"),
            Some(call) => assert!(rt; may_leave(call, at, before, word), "at {at}: {word:x}"),
        }
    }
}

// After a fault each call but `power_up` fails, and asks the system nothing; `power_up` mends it.
fn stays_down(rt: &impl Abort, disk: &Disk, flash: &mut FlashFile<'_, System<'_>>) {
    let calls = disk.calls();
    assert_eq!(rt; flash.read(0), Err(FlashFault));
    assert_eq!(rt; flash.program(9, WORD), Err(FlashFault));
    assert_eq!(rt; flash.erase(0), Err(FlashFault));
    assert_eq!(rt; disk.calls(), calls);
    assert_eq!(rt; flash.power_up(), Ok(()));
}

// Asks both flashes the same, and looks after each call that file and disk have what they must. Where a call failed, it
// looks what that left. Answers whether one failed.
fn runs(
    rt: &impl Abort,
    disk: &Disk,
    flash: &mut FlashFile<'_, System<'_>>,
    calls: &[Call],
) -> bool {
    let mut memory = MemFlash::erased();
    for call in calls {
        match ask_file(flash, *call) {
            Ok(word) => {
                assert_eq!(rt; ask_memory(&mut memory, *call), Ok(word));
                compare(rt, &disk.written(), &memory, None);
                compare(rt, &disk.synced(), &memory, None);
            }
            Err(FlashFault) => {
                let len = disk.written().bytes().len();
                assert!(rt; len == 0 || len == WHOLE, "{len} bytes");
                assert_eq!(rt; disk.synced().bytes().len(), len);
                stays_down(rt, disk, flash);
                compare(rt, &disk.written(), &memory, Some(*call));
                return true;
            }
        }
    }
    false
}

// Each call of the system fails once, and of each the flash says so.
#[test]
fn a_flash_file_does_as_memory_does(rt: HostRuntime) -> Result<(), AllocError> {
    for (calls, start, most, count) in [
        (LIFE.as_slice(), None, WHOLE, 33),
        (LIFE.as_slice(), Some(Image::empty()), 3000, 37),
        (HOUR.as_slice(), Some(Image::of(0xff, WHOLE)), 3, 18),
    ] {
        for fails in 0..=count {
            let disk = Disk::new(start);
            let system = System(&disk);
            let mut flash = FlashFile::at(&system, String::from_str(rt.alloc(), PATH)?);
            disk.most(most);
            disk.fail(fails);
            let failed = runs(&rt, &disk, &mut flash, calls);
            assert_eq!(rt; failed, 0 < fails, "call {fails} of {count}");
            assert_eq!(rt; disk.has_failed(), failed, "call {fails} of {count}");
            if !failed {
                assert_eq!(rt; disk.calls(), count);
            }
        }
    }
    Ok(())
}

// What is asked of the system, and in which order: each write waits for the disk before it is answered.
#[test]
fn a_flash_file_asks_the_system_in_order(rt: HostRuntime) -> Result<(), AllocError> {
    let disk = Disk::new(None);
    let system = System(&disk);
    let mut flash = FlashFile::at(&system, String::from_str(rt.alloc(), PATH)?);
    assert!(rt; disk.notes_were(b""));
    assert_eq!(rt; flash.read(5), Ok(u64::MAX));
    assert!(rt; disk.notes_were(b"snwarfaoclkg"), "made, opened and read");
    assert_eq!(rt; flash.program(3, WORD), Ok(()));
    assert!(rt; disk.notes_were(b"kwd"));
    assert_eq!(rt; flash.read(3), Ok(WORD));
    assert!(rt; disk.notes_were(b"kg"));
    assert_eq!(rt; flash.erase(1), Ok(()));
    assert!(rt; disk.notes_were(b"kwd"));
    assert_eq!(rt; flash.power_up(), Ok(()));
    assert!(rt; disk.notes_were(b""));
    Ok(())
}

// Where a file may stand: in a folder, in the one that the run is in, at the root, and in a folder of a folder.
const PLACES: [Names; 4] = [
    Names {
        file: "shed/flash",
        beside: "shed/flash.new",
        folder: "shed",
    },
    Names {
        file: "flash",
        beside: "flash.new",
        folder: ".",
    },
    Names {
        file: "/flash",
        beside: "/flash.new",
        folder: "/",
    },
    Names {
        file: "/mnt/shed/flash",
        beside: "/mnt/shed/flash.new",
        folder: "/mnt/shed",
    },
];

// The folder that is synced is the one in which the file was made.
#[test]
fn a_flash_file_syncs_its_folder(rt: HostRuntime) -> Result<(), AllocError> {
    for names in PLACES {
        let disk = Disk::with_names(names, None);
        let system = System(&disk);
        let mut flash = FlashFile::at(&system, String::from_str(rt.alloc(), names.file)?);
        assert_eq!(rt; flash.power_up(), Ok(()), "{}", names.file);
        assert!(rt; disk.notes_were(b"snwarfaocl"), "{}", names.file);
        assert_eq!(rt; disk.synced().bytes().len(), WHOLE);
    }
    Ok(())
}

// After a fault the file is closed, and the next `power_up` opens it anew: (s), (o), (c) and (l) are asked for again.
#[test]
fn a_fault_closes_the_file(rt: HostRuntime) -> Result<(), AllocError> {
    for (call, fails, asked) in [
        (Call::Read(3), 1, b"k".as_slice()),
        (Call::Read(3), 2, b"kg"),
        (Call::Program(3, WORD), 1, b"k"),
        (Call::Program(3, WORD), 2, b"kw"),
        (Call::Program(3, WORD), 3, b"kwd"),
        (Call::Erase(1), 1, b"k"),
        (Call::Erase(1), 2, b"kw"),
        (Call::Erase(1), 3, b"kwd"),
    ] {
        let disk = Disk::new(Some(Image::of(0xff, WHOLE)));
        let system = System(&disk);
        let mut flash = FlashFile::at(&system, String::from_str(rt.alloc(), PATH)?);
        assert_eq!(rt; flash.power_up(), Ok(()));
        assert!(rt; disk.notes_were(b"socl"), "opened");
        disk.fail(fails);
        assert_eq!(rt; ask_file(&mut flash, call), Err(FlashFault), "call {fails}");
        assert!(rt; disk.notes_were(asked), "call {fails}");
        assert_eq!(rt; flash.power_up(), Ok(()), "call {fails}");
        assert!(rt; disk.notes_were(b"socl"), "opened anew after call {fails}");
    }
    Ok(())
}

// A file that another run holds is a fault and stays as it is; once it is free, `power_up` opens it.
#[test]
fn a_held_file_is_refused(rt: HostRuntime) -> Result<(), AllocError> {
    let disk = Disk::new(Some(Image::of(0x5a, WHOLE)));
    let system = System(&disk);
    let mut flash = FlashFile::at(&system, String::from_str(rt.alloc(), PATH)?);
    disk.hold(true);
    assert_eq!(rt; flash.power_up(), Err(FlashFault));
    assert!(rt; disk.notes_were(b"soc"), "refused at the claim");
    assert_eq!(rt; flash.program(3, WORD), Err(FlashFault));
    assert!(rt; disk.notes_were(b""));
    assert!(rt; disk.written().bytes().iter().all(|byte| *byte == 0x5a));
    disk.hold(false);
    assert_eq!(rt; flash.power_up(), Ok(()));
    assert_eq!(rt; flash.read(3), Ok(0x5a5a_5a5a_5a5a_5a5a));
    Ok(())
}

// A link is as good as the file that it leads to, and nothing is made through it.
#[test]
fn a_link_is_never_replaced(rt: HostRuntime) -> Result<(), AllocError> {
    for image in [None, Some(Image::empty()), Some(Image::of(0x5a, 8191))] {
        let disk = Disk::with_link(image);
        let system = System(&disk);
        let mut flash = FlashFile::at(&system, String::from_str(rt.alloc(), PATH)?);
        let before = disk.written().bytes().len();
        assert_eq!(rt; flash.power_up(), Err(FlashFault), "{before} bytes");
        assert_eq!(rt; disk.written().bytes().len(), before);
        disk.replace(Image::of(0x5a, WHOLE));
        assert_eq!(rt; flash.power_up(), Ok(()), "{before} bytes");
        assert_eq!(rt; flash.read(1023), Ok(0x5a5a_5a5a_5a5a_5a5a));
    }
    Ok(())
}

// A made device with one token accepted: the words by the format, and the bytes that stand in the file.
const MADE: [(u16, u64, [u8; 8]); 13] = [
    (
        1,
        0x0001_0203_fffe_fdfc,
        [0x00, 0x01, 0x02, 0x03, 0xff, 0xfe, 0xfd, 0xfc],
    ),
    (
        2,
        0x0405_0607_fbfa_f9f8,
        [0x04, 0x05, 0x06, 0x07, 0xfb, 0xfa, 0xf9, 0xf8],
    ),
    (
        3,
        0x0809_0a0b_f7f6_f5f4,
        [0x08, 0x09, 0x0a, 0x0b, 0xf7, 0xf6, 0xf5, 0xf4],
    ),
    (
        4,
        0x0c0d_0e0f_f3f2_f1f0,
        [0x0c, 0x0d, 0x0e, 0x0f, 0xf3, 0xf2, 0xf1, 0xf0],
    ),
    (
        5,
        0x075b_cd15_f8a4_32ea,
        [0x07, 0x5b, 0xcd, 0x15, 0xf8, 0xa4, 0x32, 0xea],
    ),
    (
        6,
        0x0100_0901_feff_f6fe,
        [0x01, 0x00, 0x09, 0x01, 0xfe, 0xff, 0xf6, 0xfe],
    ),
    (
        7,
        0x0000_0000_ffff_ffff,
        [0x00, 0x00, 0x00, 0x00, 0xff, 0xff, 0xff, 0xff],
    ),
    (
        8,
        0x0000_0000_ffff_ffff,
        [0x00, 0x00, 0x00, 0x00, 0xff, 0xff, 0xff, 0xff],
    ),
    (
        9,
        0x0000_0000_ffff_ffff,
        [0x00, 0x00, 0x00, 0x00, 0xff, 0xff, 0xff, 0xff],
    ),
    (
        10,
        0x0000_0000_ffff_ffff,
        [0x00, 0x00, 0x00, 0x00, 0xff, 0xff, 0xff, 0xff],
    ),
    (
        11,
        0x0000_0000_ffff_ffff,
        [0x00, 0x00, 0x00, 0x00, 0xff, 0xff, 0xff, 0xff],
    ),
    (
        0,
        0x0000_0001_ffff_fffe,
        [0x00, 0x00, 0x00, 0x01, 0xff, 0xff, 0xff, 0xfe],
    ),
    (
        12,
        0x0000_041e_ffff_fbe1,
        [0x00, 0x00, 0x04, 0x1e, 0xff, 0xff, 0xfb, 0xe1],
    ),
];

#[test]
fn a_made_device_stands_in_the_file(rt: HostRuntime) -> Result<(), AllocError> {
    let disk = Disk::new(None);
    let system = System(&disk);
    let mut flash = FlashFile::at(&system, String::from_str(rt.alloc(), PATH)?);
    assert_eq!(rt; flash.power_up(), Ok(()));
    assert_eq!(rt; flash.erase(0), Ok(()));
    for (at, word, _) in MADE {
        assert_eq!(rt; ask_file(&mut flash, Call::Program(at, word)), Ok(0));
    }
    let image = disk.synced();
    assert_eq!(rt; image.bytes().len(), WHOLE);
    for (at, _, bytes) in MADE {
        let start = 8 * usize::from(at);
        assert_eq!(rt;
            image.bytes().get(start..start + 8),
            Some(bytes.as_slice()),
            "at {at}"
        );
    }
    let rest = image.bytes().get(104..).unwrap_or(&[]);
    assert_eq!(rt; rest.len(), 8088);
    assert!(rt; rest.iter().all(|byte| *byte == 0xff));
    Ok(())
}

// A file of another length, or a folder, is a fault and stays; a whole file in its place is opened by the next `power_up`.
#[test]
fn a_file_of_another_length_stays_as_it_is(rt: HostRuntime) -> Result<(), AllocError> {
    for len in [1, 4096, 8191, 8193] {
        let disk = Disk::new(Some(Image::of(0x5a, len)));
        let system = System(&disk);
        let mut flash = FlashFile::at(&system, String::from_str(rt.alloc(), PATH)?);
        assert_eq!(rt; flash.read(0), Err(FlashFault), "{len} bytes");
        assert_eq!(rt; flash.power_up(), Err(FlashFault), "{len} bytes");
        assert_eq!(rt; disk.written().bytes().len(), len);
        assert!(rt; disk.written().bytes().iter().all(|byte| *byte == 0x5a));
        disk.replace(Image::of(0x5a, WHOLE));
        assert_eq!(rt; flash.power_up(), Ok(()), "{len} bytes");
        assert_eq!(rt; flash.read(1023), Ok(0x5a5a_5a5a_5a5a_5a5a), "{len} bytes");
    }
    let disk = Disk::with_folder();
    let system = System(&disk);
    let mut flash = FlashFile::at(&system, String::from_str(rt.alloc(), PATH)?);
    assert_eq!(rt; flash.power_up(), Err(FlashFault));
    Ok(())
}
