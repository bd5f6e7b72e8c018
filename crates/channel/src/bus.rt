// Whether the channel keeps the buses after a cycle, and a cycle without a read or a write.
ghost use Rattle.std.specs.Prelude.{◌≡◌};
ghost use Rattle.registers.specs.Cycles.{loan_after, pause_kind, loan_paused, pause};

use crate::marks::{finishes, is_final};
use control::fields::{Mode, Space};
use registers::answer::{Answer, Kind, Mark};
use registers::row::Loan;

// The loan after a read or a write with this mark.
pub(crate) fn loan_after(mode: Mode, mark: Mark) -> Loan
    ensures { result ≡ loan_after mode mark }
{
    let lets_go = match mode {
        Mode::Byte => finishes(mark),
        Mode::Continuous | Mode::Burst => is_final(mark),
    };
    if lets_go {
        Loan::Released
    } else {
        Loan::Master
    }
}

// What the master does with nothing held and Ready inactive, and the loan after that.
pub(crate) fn pausing(mode: Mode) -> (Kind, Loan)
    ensures kind { result.0 ≡ pause_kind mode }
    ensures loan { result.1 ≡ loan_paused mode }
{
    match mode {
        Mode::Continuous => (Kind::Idle, Loan::Master),
        Mode::Byte | Mode::Burst => (Kind::Release, Loan::Released),
    }
}

// What idling and letting go answer: 0 where nothing is read or written.
pub(crate) fn pause(kind: Kind) -> Answer
    ensures { result ≡ pause kind }
{
    Answer {
        kind,
        space: Space::Memory,
        address: 0,
        byte: 0,
        time: 1,
        mark: Mark::Unfinished,
        pulse: false,
    }
}
