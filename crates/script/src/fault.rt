// What is wrong with a script.
ghost use Rattle.std.specs.Prelude.{◌≡◌, Some};
ghost use Rattle.script.specs.declared.fault.PlayFault.TheVariants as play;
ghost use Rattle.script.specs.declared.fault.Wrong.TheVariants as wrong;
ghost use Rattle.script.specs.Faults.{wrong_words, fault_words, no_memory, play_words};

use std::alloc::{AllocError, AllocFailed};
use std::fmt;

#[derive(Clone, Copy, Debug, PartialEq, Eq)]
pub enum Wrong {
    NotUnderstood,
    NoByte,
    NoAddress,
    NoNumber,
    // a board line that may stand once
    Twice,
    // a board line after the first access
    OutOfPlace,
    // first contents at an address that the RAM does not have
    OutsideRam,
    NoMemory,
}

impl Wrong {
    pub(crate) fn on_line(self, line: usize) -> ScriptFault {
        ScriptFault {
            line: Some(line),
            wrong: self,
        }
    }
}

impl fmt::Display for Wrong {
    ghost output = { λ w. Some (wrong_words w) };

    fn fmt<W: fmt::Write>(&self, f: &mut fmt::Formatter<W>) -> fmt::Result {
        f.write_str(match self {
            Wrong::NotUnderstood => "not understood",
            Wrong::NoByte => "no byte of one or two hexadecimal digits",
            Wrong::NoAddress => "no address of one to four hexadecimal digits",
            Wrong::NoNumber => "no decimal number in its range",
            Wrong::Twice => "a second line of its kind",
            Wrong::OutOfPlace => "a board line after the first access",
            Wrong::OutsideRam => "a byte outside the RAM",
            Wrong::NoMemory => "no memory",
        })
    }
}

impl From<AllocError> for Wrong {
    ghost from_gives = { λ _ w. w ≡ wrong.NoMemory };

    fn from(_error: AllocError) -> Wrong {
        Wrong::NoMemory
    }
}

impl<T: Drop> From<AllocFailed<T>> for Wrong {
    ghost from_gives = { λ _ w. w ≡ wrong.NoMemory };

    fn from(_refused: AllocFailed<T>) -> Wrong {
        Wrong::NoMemory
    }
}

// What is wrong, and the line that it is wrong on, from 1. No one line is at fault where there is no memory for the
// whole script, or for the board's RAM.
#[derive(Clone, Copy, Debug, PartialEq, Eq)]
pub struct ScriptFault {
    pub line: Option<usize>,
    pub wrong: Wrong,
}

impl fmt::Display for ScriptFault {
    ghost output = { λ f. Some (fault_words f) };

    fn fmt<W: fmt::Write>(&self, f: &mut fmt::Formatter<W>) -> fmt::Result {
        // a fault on no one line is printed as of line 0
        let line = self.line.unwrap_or(0);
        let wrong = self.wrong;
        write!(f, "line {line}: {wrong}")
    }
}

impl From<AllocError> for ScriptFault {
    ghost from_gives = { λ _ f. f ≡ no_memory };

    fn from(_error: AllocError) -> ScriptFault {
        ScriptFault {
            line: None,
            wrong: Wrong::NoMemory,
        }
    }
}

// Why a script is not played to its end.
#[derive(Clone, Copy, Debug, PartialEq, Eq)]
pub enum PlayFault {
    Script(ScriptFault),
    NoMemory,
}

impl fmt::Display for PlayFault {
    ghost output = { λ f. Some (play_words f) };

    fn fmt<W: fmt::Write>(&self, f: &mut fmt::Formatter<W>) -> fmt::Result {
        match self {
            PlayFault::Script(fault) => write!(f, "{fault}"),
            PlayFault::NoMemory => write!(f, "{}", Wrong::NoMemory),
        }
    }
}

impl From<ScriptFault> for PlayFault {
    ghost from_gives = { λ s f. f ≡ play.Script s };

    fn from(fault: ScriptFault) -> PlayFault {
        PlayFault::Script(fault)
    }
}

impl From<AllocError> for PlayFault {
    ghost from_gives = { λ _ f. f ≡ play.NoMemory };

    fn from(_error: AllocError) -> PlayFault {
        PlayFault::NoMemory
    }
}

// for callers that format a line, of which this repository has none: what fails on the way to a String is want of memory
impl From<fmt::Error> for PlayFault {
    ghost from_gives = { λ _ f. f ≡ play.NoMemory };

    fn from(_error: fmt::Error) -> PlayFault {
        PlayFault::NoMemory
    }
}
