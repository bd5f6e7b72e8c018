// What a cycle answers.
ghost use Rattle.std.specs.Prelude.{◌≡◌, Some};
ghost use Rattle.registers.specs.Cycles.{timed};
ghost use Rattle.registers.specs.Words.{kind_word};

use control::fields::Space;
use std::fmt;

#[derive(Clone, Copy, Debug, PartialEq, Eq)]
pub enum Kind {
    Read,
    Write,
    Idle,
    // letting the buses go
    Release,
}

impl fmt::Display for Kind {
    ghost output = { λ kind. Some (kind_word kind) };

    fn fmt<W: fmt::Write>(&self, f: &mut fmt::Formatter<W>) -> fmt::Result {
        f.write_str(self.word())
    }
}

// What a cycle finished.
#[derive(Clone, Copy, Debug, PartialEq, Eq)]
pub enum Mark {
    Unfinished,
    Finished,
    Ended,
    Stopped,
    // ended and stopped
    Both,
}

// What a cycle answers but for its T-cycles.
#[derive(Clone, Copy, Debug, PartialEq, Eq)]
pub struct Move {
    pub kind: Kind,
    pub space: Space,
    pub address: u16,
    pub byte: u8,
    pub mark: Mark,
    pub pulse: bool,
}

// Flat, with no `Move` in it: the laws and whoever reads a log speak of each part by itself.
#[derive(Clone, Copy, Debug, PartialEq, Eq)]
pub struct Answer {
    pub kind: Kind,
    pub space: Space,
    pub address: u16,
    pub byte: u8,
    pub time: u16,
    pub mark: Mark,
    pub pulse: bool,
}

impl Move {
    // The answer with its T-cycles.
    pub fn timed(self, time: u16) -> Answer
        ensures { result ≡ timed self time }
    {
        Answer {
            kind: self.kind,
            space: self.space,
            address: self.address,
            byte: self.byte,
            time,
            mark: self.mark,
            pulse: self.pulse,
        }
    }
}
