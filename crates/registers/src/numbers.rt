// The numbers and the words that refusals, marks, kinds and loans stand for.
ghost use Rattle.std.specs.Prelude.{◌≡◌};
ghost use Rattle.registers.specs.Numbers.{refusal_number, mark_number};
ghost use Rattle.registers.specs.Words.{kind_word, loan_word};

use crate::answer::{Kind, Mark};
use crate::fault::ChannelFault;
use crate::row::Loan;

impl ChannelFault {
    // The number in the board's list of refusals. `u8::from` would not say of which list.
    pub fn number(self) -> u8
        ensures { result ≡ refusal_number self }
    {
        match self {
            ChannelFault::LoanOpen => 1,
            ChannelFault::Decode(fault) => fault.number(),
            ChannelFault::LengthZero => 4,
            ChannelFault::CountAboveLength => 5,
            ChannelFault::RegisterUnread => 6,
            ChannelFault::NothingUnread => 7,
            ChannelFault::Disabled => 8,
            ChannelFault::ReadyInactive => 9,
            ChannelFault::NoLoanOpen => 10,
            ChannelFault::LetGo => 11,
            ChannelFault::StillMaster => 12,
            ChannelFault::NoRequest => 13,
        }
    }
}

impl Mark {
    // The number in the board's list of marks. `u8::from` would not say of which list.
    pub fn number(self) -> u8
        ensures { result ≡ mark_number self }
    {
        match self {
            Mark::Unfinished => 0,
            Mark::Finished => 1,
            Mark::Ended => 2,
            Mark::Stopped => 3,
            Mark::Both => 4,
        }
    }
}

impl Kind {
    // The word that its `Display` prints; taking it cannot fail, as printing can.
    pub fn word(self) -> &'static str
        ensures { result.now ≡ kind_word self }
    {
        match self {
            Kind::Read => "read",
            Kind::Write => "write",
            Kind::Idle => "idle",
            Kind::Release => "release",
        }
    }
}

impl Loan {
    // The word that its `Display` prints; taking it cannot fail, as printing can.
    pub fn word(self) -> &'static str
        ensures { result.now ≡ loan_word self }
    {
        match self {
            Loan::Closed => "none",
            Loan::Master => "master",
            Loan::Released => "released",
        }
    }
}
