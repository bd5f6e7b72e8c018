// What the bit fields of a control byte say, each by itself.
// Plain functions for the fields of a first byte, which share it: a `From<u8>` would not say which bits it reads. What has
// a byte of its own has a `TryFrom`. Class and rule stand each by itself: one function for both would take the bits and
// all that they say as arguments.
ghost use Rattle.std.specs.Prelude.{◌≡◌, if◌then◌else◌};
ghost use Rattle.control.specs.Bits.{on};
ghost use Rattle.control.specs.Firsts.{class_of, rule_of, command_said, wr6_of};
ghost use Rattle.control.specs.Followers.{timing_of, interrupt_control_of};

use crate::fault::DecodeFault;
use crate::fields::{AddressRule, Class, InterruptControl, Timing};
use crate::first::{Command, First};

// Of two values, the one that stands for a bit that is 1, or the one for 0.
pub(crate) fn by_bit<T: Copy>(byte: u8, bit: u8, one: T, zero: T) -> T
    ensures { result ≡ (if on byte bit then one else zero) }
{
    if byte & bit != 0 { one } else { zero }
}

pub(crate) fn class(byte: u8) -> Class
    ensures { result ≡ class_of byte }
{
    match byte & 0x03 {
        0x01 => Class::Transfer,
        0x02 => Class::Search,
        _ => Class::Both,
    }
}

pub(crate) fn rule(byte: u8) -> AddressRule
    ensures { result ≡ rule_of byte }
{
    match byte & 0x30 {
        0x00 => AddressRule::Decrement,
        0x10 => AddressRule::Increment,
        _ => AddressRule::Fixed,
    }
}

// A byte of none of the groups WR0 to WR5: a command, or nothing.
#[tactic(auto, unfolding(crate::specs::Firsts::wr6_of))]
pub(crate) fn wr6(byte: u8) -> Result<First, DecodeFault>
    ensures { result ≡ wr6_of byte }
{
    Command::try_from(byte).map(First::Wr6)
}

// From the command's code.
impl TryFrom<u8> for Command {
    type Error = DecodeFault;

    ghost try_from_gives = { λ byte said. said ≡ command_said byte };

    fn try_from(byte: u8) -> Result<Command, DecodeFault> {
        match byte {
            0xC3 => Ok(Command::PowerOn),
            0xC7 => Ok(Command::DefaultTimingA),
            0xCB => Ok(Command::DefaultTimingB),
            0xCF => Ok(Command::Load),
            0xD3 => Ok(Command::Continue),
            0xAF => Ok(Command::InterruptsOff),
            0xAB => Ok(Command::InterruptsOn),
            0xA3 => Ok(Command::InterruptsReset),
            0x87 => Ok(Command::Enable),
            0x83 => Ok(Command::Disable),
            0xBB => Ok(Command::ReadMask),
            0xA7 => Ok(Command::StartReadOut),
            0xBF => Ok(Command::ReadStatus),
            0x8B => Ok(Command::ClearStatus),
            0xB3 => Ok(Command::ForceReady),
            _ => Err(DecodeFault::NoGroup),
        }
    }
}

// From the byte of a timing follower, whose other bits are forgotten.
impl TryFrom<u8> for Timing {
    type Error = DecodeFault;

    ghost try_from_gives = { λ byte said. said ≡ timing_of byte };

    fn try_from(byte: u8) -> Result<Timing, DecodeFault> {
        match byte & 0x03 {
            0x00 => Ok(Timing::Four),
            0x01 => Ok(Timing::Three),
            0x02 => Ok(Timing::Two),
            _ => Err(DecodeFault::BadTiming),
        }
    }
}

// From the interrupt control byte.
impl TryFrom<u8> for InterruptControl {
    type Error = DecodeFault;

    ghost try_from_gives = { λ byte said. said ≡ interrupt_control_of byte };

    fn try_from(byte: u8) -> Result<InterruptControl, DecodeFault> {
        if byte & 0xC0 == 0 {
            Ok(InterruptControl {
                on_match: byte & 0x01 != 0,
                on_end: byte & 0x02 != 0,
                pulses: byte & 0x04 != 0,
                status_in_vector: byte & 0x20 != 0,
            })
        } else {
            Err(DecodeFault::BadInterruptControl)
        }
    }
}
