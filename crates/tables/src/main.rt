// Prints what a control table on standard input says, byte by byte. A word that is no byte ends it with status 1.
#![tactic(auto)]

use anyhow::anyhow;
use listing::read::{ReadFault, read_table};
use listing::write::listing;
use std::process::ExitCode;
use text::input::read_whole;
use text::shown::Printable;

fn main(rt: HostRuntime) -> anyhow::Result<ExitCode> {
    let text = read_whole(rt.alloc(), rt.stdin())?;
    match read_table(rt.alloc(), text.as_slice()) {
        Ok(bytes) => {
            rt.print(listing(rt.alloc(), bytes.as_slice())?)?;
            Ok(ExitCode::SUCCESS)
        }
        Err(ReadFault::NoByte { line, word }) => {
            let word = Printable(word);
            eprintln!(rt; "line {line}: no byte: {word}")?;
            Ok(ExitCode::FAILURE)
        }
        Err(ReadFault::Memory) => Err(anyhow!("out of memory")),
    }
}
