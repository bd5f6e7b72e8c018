// Two tables of control bytes, one accepted and one refused.
use control::decode::decode_table;
use control::fault::{DecodeFault, TableFault};
use control::follower::{Follower, Followers};
use std::test::Fail;

// A transfer of 4,097 bytes from memory at 1050h to the I/O port 05h.
#[rattlefmt::skip]
const SAMPLE: [u8; 14] = [0x79, 0x50, 0x10, 0x00, 0x10, 0x14, 0x28, 0xC5, 0x05, 0x8A, 0xCF, 0x05, 0xCF, 0x87];

#[test]
fn sample_table_is_accepted(rt: HostRuntime) -> Result<(), Fail> {
    assert_eq!(rt; decode_table(&SAMPLE), Ok(Followers::Zero));
    Ok(())
}

// Port B's timing byte is due at place 1, and is 11.
#[test]
fn refused_timing_has_its_place(rt: HostRuntime) -> Result<(), Fail> {
    let refused = TableFault {
        place: 1,
        due: Some(Follower::BTiming),
        fault: DecodeFault::BadTiming,
    };
    assert_eq!(rt; decode_table(&[0x40, 0x03, 0x87]), Err(refused));
    Ok(())
}
