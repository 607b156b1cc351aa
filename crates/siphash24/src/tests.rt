use super::*;
use std::test::Fail;

/// The key of the published vectors.
const KEY: [u8; 16] = [0, 1, 2, 3, 4, 5, 6, 7, 8, 9, 10, 11, 12, 13, 14, 15];

/// The bytes of the published vectors: the message of length n is the first n of them.
const BYTES: [u8; 15] = [0, 1, 2, 3, 4, 5, 6, 7, 8, 9, 10, 11, 12, 13, 14];

#[test]
fn published_vectors(rt: HostRuntime) -> Result<(), Fail> {
    let table: [(usize, u64); 4] = [
        (0, 0x726f_db47_dd0e_0e31),
        (1, 0x74f8_39c5_93dc_67fd),
        (8, 0x93f5_f579_9a93_2462),
        (15, 0xa129_ca61_49be_45e5),
    ];
    for (length, wanted) in table {
        assert!(rt; length <= BYTES.len());
        assert_eq!(rt; hash(&KEY, &BYTES[..length]), wanted, "length {length}");
    }
    Ok(())
}

#[test]
fn eight_bytes_as_a_word(rt: HostRuntime) -> Result<(), Fail> {
    assert_eq!(rt; hash8(&KEY, 0x0706_0504_0302_0100), 0x93f5_f579_9a93_2462);
    Ok(())
}
