// Plays scripts on a board and prints what came: one script on standard input, or each file named as an argument.
// It is thin: everything that matters stands in the crate `script`. docs/bench-script.md is the language.
#![tactic(auto)]

use script::play::play;
use std::fmt::Display;
use std::process::ExitCode;
use std::{env, fs, io};
use text::input::read_whole;

// What ends the program with status 1, once its line on standard error is written.
#[derive(Drop)]
struct Stopped;

impl From<io::Error> for Stopped {
    fn from(_error: io::Error) -> Stopped {
        Stopped
    }
}

fn main(rt: HostRuntime) -> ExitCode {
    match play_all(&rt) {
        Ok(()) => ExitCode::SUCCESS,
        Err(Stopped) => ExitCode::FAILURE,
    }
}

// The scripts that the arguments name, or with none the one on standard input.
fn play_all(rt: &HostRuntime) -> Result<(), Stopped> {
    let mut names = env::args(rt)?.skip(1).peekable();
    if names.peek().is_none() {
        return play_input(rt);
    }
    for name in names {
        play_file(rt, name.as_str())?;
    }
    Ok(())
}

fn play_input(rt: &HostRuntime) -> Result<(), Stopped> {
    let Ok(text) = read_whole(rt.alloc(), rt.stdin()) else {
        return stop(rt, "standard input can't be read");
    };
    play_script(rt, text.as_slice(), "", "")
}

fn play_file(rt: &HostRuntime, name: &str) -> Result<(), Stopped> {
    let Ok(text) = fs::read(rt, name) else {
        return stop(rt, format_args!("{name}: can't be read"));
    };
    let heading = format_args!("(script {name})\n");
    let place = format_args!("{name}: ");
    play_script(rt, text.as_slice(), heading, place)
}

// Prints the heading and what the script prints; where it is not played to its end,
// only the place and what is wrong.
fn play_script(
    rt: &HostRuntime,
    text: &[u8],
    heading: impl Display + Drop,
    place: impl Display + Drop,
) -> Result<(), Stopped> {
    match play(rt.alloc(), text) {
        Ok(out) => Ok(print!(rt; "{heading}{out}")?),
        Err(fault) => stop(rt, format_args!("{place}{fault}")),
    }
}

fn stop(rt: &HostRuntime, line: impl Display + Drop) -> Result<(), Stopped> {
    eprintln!(rt; "{line}")?;
    Err(Stopped)
}
