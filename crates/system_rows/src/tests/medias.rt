// A flash of three banks in a file, over a made-up system.
use super::disk::{Disk, Image, PATH, System};
use media_ports::Media;
use paygo_ports::FlashFault;
use std::alloc::AllocError;
use std::process::Abort;
use system_ports::MediaFile;

const WORD: u64 = 0x0123_4567_89ab_cdef;

const WHOLE: usize = 12_288;

#[derive(Clone, Copy)]
enum Call {
    PowerUp,
    Read(u16, u16),
    Program(u16, u16, u64),
    Erase(u16),
}

// A flash is made, written, erased and written again, and what each call answers.
const LIFE: [(Call, u64); 9] = [
    (Call::PowerUp, 0),
    (Call::Read(2, 511), u64::MAX),
    (Call::Program(2, 511, WORD), 0),
    (Call::Program(1, 0, 7), 0),
    (Call::Read(2, 511), WORD),
    (Call::Erase(1), 0),
    (Call::Read(1, 0), u64::MAX),
    (Call::Read(2, 511), WORD),
    (Call::Erase(2), 0),
];

fn ask(media: &mut MediaFile<'_, System<'_>>, call: Call) -> Result<u64, FlashFault> {
    let banks = media.banks();
    match call {
        Call::PowerUp => media.power_up().map(|_| 0),
        Call::Read(bank, place) if bank < banks && place < 512 => media.read(bank, place),
        Call::Program(bank, place, word) if bank < banks && place < 512 => {
            media.program(bank, place, word).map(|_| 0)
        }
        Call::Erase(bank) if bank < banks => media.erase(bank).map(|_| 0),
        _ => Err(FlashFault),
    }
}

// Makes these calls, and answers whether one failed. Then the file is absent, empty or whole, the media is down and
// asks the system nothing, and `power_up` mends it.
fn runs(rt: &impl Abort, disk: &Disk, media: &mut MediaFile<'_, System<'_>>) -> bool {
    for (call, want) in LIFE {
        match ask(media, call) {
            Ok(word) => assert_eq!(rt; word, want),
            Err(FlashFault) => {
                let len = disk.written().bytes().len();
                assert!(rt; len == 0 || len == WHOLE, "{len} bytes");
                assert_eq!(rt; disk.synced().bytes().len(), len);
                let calls = disk.calls();
                assert_eq!(rt; ask(media, Call::Read(0, 0)), Err(FlashFault));
                assert_eq!(rt; ask(media, Call::Program(2, 9, WORD)), Err(FlashFault));
                assert_eq!(rt; ask(media, Call::Erase(0)), Err(FlashFault));
                assert_eq!(rt; disk.calls(), calls);
                assert_eq!(rt; ask(media, Call::PowerUp), Ok(0));
                return true;
            }
        }
    }
    false
}

// Each call of the system fails once, and of each the media says so.
#[test]
fn a_media_file_tells_each_fault(rt: HostRuntime) -> Result<(), AllocError> {
    for (start, most) in [
        (None, WHOLE),
        (Some(Image::empty()), 3000),
        (Some(Image::of(0xff, WHOLE)), 1000),
    ] {
        let calm = Disk::new(start);
        calm.most(most);
        let system = System(&calm);
        let mut media = MediaFile::at(&system, String::from_str(rt.alloc(), PATH)?, 3);
        assert!(rt; !runs(&rt, &calm, &mut media));
        let count = calm.calls();
        for fails in 1..=count {
            let disk = Disk::new(start);
            let system = System(&disk);
            let mut media = MediaFile::at(&system, String::from_str(rt.alloc(), PATH)?, 3);
            disk.most(most);
            disk.fail(fails);
            assert!(rt; runs(&rt, &disk, &mut media), "call {fails} of {count}");
            assert!(rt; disk.has_failed(), "call {fails} of {count}");
        }
    }
    Ok(())
}

// What is asked of the system, and in which order; and which bytes then stand in the file.
#[test]
fn a_media_file_asks_the_system_in_order(rt: HostRuntime) -> Result<(), AllocError> {
    let disk = Disk::new(None);
    let system = System(&disk);
    let mut media = MediaFile::at(&system, String::from_str(rt.alloc(), PATH)?, 3);
    assert!(rt; disk.notes_were(b""));
    assert_eq!(rt; ask(&mut media, Call::Read(2, 5)), Ok(u64::MAX));
    assert!(rt; disk.notes_were(b"snwarfaoclkg"), "made, opened and read");
    assert_eq!(rt; disk.synced().bytes().len(), WHOLE);
    assert_eq!(rt; ask(&mut media, Call::Program(2, 511, WORD)), Ok(0));
    assert!(rt; disk.notes_were(b"kwd"));
    let image = disk.synced();
    assert_eq!(rt;
        image.bytes().get(12_280..),
        Some([0x01, 0x23, 0x45, 0x67, 0x89, 0xab, 0xcd, 0xef].as_slice())
    );
    let rest = image.bytes().get(..12_280).unwrap_or(&[]);
    assert!(rt; rest.len() == 12_280 && rest.iter().all(|byte| *byte == 0xff));
    assert_eq!(rt; ask(&mut media, Call::Erase(2)), Ok(0));
    assert!(rt; disk.notes_were(b"kwd"));
    assert!(rt; disk.synced().bytes().iter().all(|byte| *byte == 0xff));
    Ok(())
}

// A file of another length is a fault and stays; a whole file in its place is opened by the next `power_up`.
#[test]
fn a_media_file_of_another_length_stays(rt: HostRuntime) -> Result<(), AllocError> {
    for len in [1, 8192, 12_287, 12_289] {
        let disk = Disk::new(Some(Image::of(0x5a, len)));
        let system = System(&disk);
        let mut media = MediaFile::at(&system, String::from_str(rt.alloc(), PATH)?, 3);
        assert_eq!(rt;
            ask(&mut media, Call::Read(0, 0)),
            Err(FlashFault),
            "{len} bytes"
        );
        assert_eq!(rt;
            ask(&mut media, Call::PowerUp),
            Err(FlashFault),
            "{len} bytes"
        );
        assert_eq!(rt; disk.written().bytes().len(), len);
        assert!(rt; disk.written().bytes().iter().all(|byte| *byte == 0x5a));
        disk.replace(Image::of(0x5a, WHOLE));
        assert_eq!(rt; ask(&mut media, Call::PowerUp), Ok(0), "{len} bytes");
        assert_eq!(rt;
            ask(&mut media, Call::Read(2, 511)),
            Ok(0x5a5a_5a5a_5a5a_5a5a),
            "{len} bytes"
        );
    }
    Ok(())
}
