// A whole script: the board that it asks for, and what it does with it.
use crate::command::Command;
use crate::fault::{ScriptFault, Wrong};
use crate::line::Line;
use crate::read::read_line;
use crate::setup::Setup;
use std::alloc::Global;
use text::pieces;

#[derive(Drop)]
pub(crate) struct Script {
    pub setup: Setup,
    pub commands: Vec<Command>,
    // whether an access has been read: a board line may not follow
    // (a flag: without it each board line would look through all commands for an access, which says no more)
    accessed: bool,
}

impl Script {
    // Reads a script to its end, or to the first line that is wrong.
    pub(crate) fn read(heap: Global, text: &[u8]) -> Result<Script, ScriptFault> {
        let mut script = Script {
            setup: Setup::new(heap),
            commands: Vec::new(heap),
            accessed: false,
        };
        for (i, line) in pieces::lines(heap, text)?.into_iter().enumerate() {
            let number = i + 1;
            script
                .take(heap, number, line)
                .map_err(|wrong| wrong.on_line(number))?;
        }
        Ok(script)
    }

    // One line more: blank ones are passed over.
    fn take(&mut self, heap: Global, number: usize, line: &[u8]) -> Result<(), Wrong> {
        let words = pieces::words(heap, line)?;
        let [name, args @ ..] = words.as_slice() else {
            return Ok(());
        };
        match read_line(heap, name, args)? {
            Line::Board(_) if self.accessed => Err(Wrong::OutOfPlace),
            Line::Board(line) => self.setup.take(number, line),
            Line::Do(command) => self.note(command),
        }
    }

    fn note(&mut self, command: Command) -> Result<(), Wrong> {
        self.accessed |= matches!(command, Command::Access(_));
        self.commands.push(command)?;
        Ok(())
    }
}
