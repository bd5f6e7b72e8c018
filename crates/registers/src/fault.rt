// Why a call of a board is refused.
ghost use Rattle.std.specs.Prelude.{◌≡◌};
ghost use Rattle.registers.specs.declared.fault.ChannelFault.TheVariants.{Decode};

use control::fault::DecodeFault;

#[derive(Clone, Copy, Debug, PartialEq, Eq)]
pub enum ChannelFault {
    LoanOpen,
    // the control byte's own fault, whole
    Decode(DecodeFault),
    // enabling with length 0
    LengthZero,
    // enabling with the count above the length
    CountAboveLength,
    // starting a read-out with a register unread
    RegisterUnread,
    NothingUnread,
    Disabled,
    ReadyInactive,
    NoLoanOpen,
    LetGo,
    StillMaster,
    NoRequest,
}

impl From<DecodeFault> for ChannelFault {
    ghost from_gives = { λ f r. r ≡ Decode f };

    fn from(fault: DecodeFault) -> ChannelFault {
        ChannelFault::Decode(fault)
    }
}
