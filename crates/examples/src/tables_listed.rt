// Tables as they are read and listed.
use listing::read::{ReadFault, read_table};
use listing::write::listing;
use std::alloc::Global;
use std::test::Fail;

// The listing of a table that is written out.
fn listed(heap: Global, text: &str) -> Result<String, Fail> {
    let bytes = read_table(heap, text.as_bytes()).map_err(|_| Fail::new("the table is not read"))?;
    Ok(listing(heap, bytes.as_slice())?)
}

#[test]
fn sample_program(rt: HostRuntime) -> Result<(), Fail> {
    let heap = rt.alloc();
    let printed = listed(
        heap,
        "79 50 10 00 10 # to 1050h\n14 28 c5 5 8a\nCF 05 CF 87",
    )?;
    assert_eq!(rt;
        printed.as_str(),
        "(0 79 WR0 (class transfer) (source b) (followers a-low a-high length-low length-high))\n(1 50 a-low)\n(2 10 a-high)\n(3 00 length-low)\n(4 10 length-high)\n(5 14 WR1 memory increment)\n(6 28 WR2 io fixed)\n(7 C5 WR4 (mode burst) (followers b-low))\n(8 05 b-low)\n(9 8A WR5 (ready high) (heed 0) (restart 0))\n(10 CF WR6 load)\n(11 05 WR0 (class transfer) (source a))\n(12 CF WR6 load)\n(13 87 WR6 enable)\n(table 14)\n"
    );
    Ok(())
}

#[test]
fn refused_bytes(rt: HostRuntime) -> Result<(), Fail> {
    let heap = rt.alloc();
    assert_eq!(rt;
        listed(heap, "79 50 10 00 10 8E 14")?.as_str(),
        "(0 79 WR0 (class transfer) (source b) (followers a-low a-high length-low length-high))\n(1 50 a-low)\n(2 10 a-high)\n(3 00 length-low)\n(4 10 length-high)\n(5 8E (refused 2))\n(table (refused 2) (at 5) (due first))\n"
    );
    assert_eq!(rt;
        listed(heap, "54 03")?.as_str(),
        "(0 54 WR1 memory increment (followers a-timing))\n(1 03 (refused 3))\n(table (refused 3) (at 1) (due a-timing))\n"
    );
    Ok(())
}

#[test]
fn followers_due(rt: HostRuntime) -> Result<(), Fail> {
    let heap = rt.alloc();
    assert_eq!(rt; listed(heap, "")?.as_str(), "(table 0)\n");
    assert_eq!(rt;
        listed(heap, "98 00")?.as_str(),
        "(0 98 WR3 (stop 0) (interrupts 0) (enable 0) (followers mask match))\n(1 00 mask)\n(table 2 (due match))\n"
    );
    assert_eq!(rt;
        listed(heap, "91 3A 07 40 40 01 BB")?.as_str(),
        "(0 91 WR4 (mode byte) (followers interrupt))\n(1 3A interrupt (on-match 0) (on-end 1) (pulses 0) (status-in-vector 1) (followers pulse vector))\n(2 07 pulse)\n(3 40 vector)\n(4 40 WR2 memory decrement (followers b-timing))\n(5 01 b-timing 3)\n(6 BB WR6 read-mask (followers read-mask))\n(table 7 (due read-mask))\n"
    );
    Ok(())
}

#[test]
fn words_that_are_no_bytes(rt: HostRuntime) -> Result<(), Fail> {
    let read = read_table(rt.alloc(), b"79 50\n\n 10 100 # 3 digits\nXY");
    let Err(ReadFault::NoByte { line, word }) = read else {
        return Err(Fail::new("no word is refused"));
    };
    assert_eq!(rt; line, 3);
    assert_eq!(rt; word, b"100".as_slice());
    Ok(())
}
