// An input read to its end.
use std::test::Fail;
use text::input::read_whole;

#[test]
fn reads_an_input_to_its_end(rt: HostRuntime) -> Result<(), Fail> {
    let script = b"in 0\nwaiting\n".as_slice();
    let text = read_whole(rt.alloc(), script)?;
    assert_eq!(rt; text.as_slice(), script);
    Ok(())
}
