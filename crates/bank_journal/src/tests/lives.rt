// What stands on the flash of a device after its first steps, worked out by hand.
use crate::{Config, Entry, make};
use memory_ports::MemFlash;
use paygo_spec::Form;

#[test]
fn a_device_is_made_and_time_passes(rt: HostRuntime) {
    let mut flash = MemFlash::erased();
    let config = Config {
        key: [0; 16],
        start: 123_456_789,
        divider: 1,
        form: Form::Nine,
    };
    match make(&mut flash, &config) {
        Ok(mut journal) => {
            let done = journal.append(&mut flash, Entry::Elapsed { seconds: 5 });
            assert!(rt; done.is_ok());
            assert_eq!(rt; journal.room(), 49_999_999);
            assert_eq!(rt; flash.word(0), 0x0000_0001_FFFF_FFFE);
            assert_eq!(rt; flash.word(12), 0x8000_0005_7FFF_FFFA);
            assert_eq!(rt; flash.word(13), u64::MAX);
        }
        Err(_) => assert!(rt; false),
    }
}
