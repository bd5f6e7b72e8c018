// Scripts that are refused whole, each with the line that is wrong, and one that is played.
use script::fault::PlayFault;
use script::play::play;
use std::test::Fail;

const REFUSED: [(&str, usize); 13] = [
    ("chute\nbanana", 2),
    ("poke 10000 1", 1),
    ("poke 1 100", 1),
    ("in 1 2", 1),
    ("memory 0 0", 1),
    ("memory 0 65537", 1),
    ("boot", 1),
    ("write 79", 1),
    ("registers", 1),
    ("border 1\n\nborder 2", 3),
    ("in 0\nram 0 1", 2),
    ("at 10 1\nram 0 16", 1),
    ("at FFFF 1 2", 1),
];

// The line that a script is refused for, if there is one.
fn refused_line(rt: &HostRuntime, text: &str) -> Option<usize> {
    match play(rt.alloc(), text.as_bytes()) {
        Err(PlayFault::Script(fault)) => fault.line,
        Ok(_) | Err(PlayFault::NoMemory) => None,
    }
}

#[test]
fn refuses_a_wrong_script_whole(rt: HostRuntime) {
    for (text, line) in REFUSED {
        assert_eq!(rt; refused_line(&rt, text), Some(line), "{}", text);
    }
}

#[test]
fn prints_what_came(rt: HostRuntime) -> Result<(), Fail> {
    let script =
        "ram 0010 2\nat 0011 7 # the last\nlabels 0 41\npoke 10 a\nmemory F 4\nin 0\nwaiting\n";
    let wanted = "(poke 0010 0A)\n(memory 000F FF 0A 07 FF)\n(in 00 41)\n(waiting)\n";
    let out = play(rt.alloc(), script.as_bytes())?;
    assert_eq!(rt; out.as_str(), wanted);
    Ok(())
}
