// The row of a channel's registers.
ghost use Rattle.std.specs.Prelude.{Some};
ghost use Rattle.registers.specs.Words.{loan_word};

use crate::latches::Latches;
use crate::manner::Manner;
use crate::program::Program;
use crate::progress::Progress;
use control::follower::Followers;
use std::fmt;

#[derive(Clone, Copy, Debug, PartialEq, Eq)]
pub struct Service {
    // interrupts on
    pub interrupts: bool,
    // an interrupt is in service
    pub serving: bool,
}

// Where the CPU is in a group of control bytes.
#[derive(Clone, Copy, Debug, PartialEq, Eq)]
pub struct Sequence {
    // the followers still due
    pub due: Followers,
    // the group's last byte enables the channel (a flag beside them: followers are due with it and without it)
    pub enabling: bool,
}

// The loan of the buses. It is open until it is returned, whether the channel has let go or not.
#[derive(Clone, Copy, Debug, PartialEq, Eq)]
pub enum Loan {
    Closed,
    // the channel drives the buses
    Master,
    // it has let go, and the loan is not yet returned
    Released,
}

impl fmt::Display for Loan {
    ghost output = { λ loan. Some (loan_word loan) };

    fn fmt<W: fmt::Write>(&self, f: &mut fmt::Formatter<W>) -> fmt::Result {
        f.write_str(self.word())
    }
}

#[derive(Clone, Copy, Debug, PartialEq, Eq)]
pub struct Registers {
    pub program: Program,
    pub manner: Manner,
    pub progress: Progress,
    pub latches: Latches,
    pub service: Service,
    pub sequence: Sequence,
    pub loan: Loan,
}
