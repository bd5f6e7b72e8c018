// Decoding of control bytes: a first byte, a follower, either of them by what is
// due, and a whole table of them.
ghost use Rattle.std.specs.Prelude.{◌≡◌};
ghost use Rattle.control.specs.Firsts.{group_of, followers_of, decoded_first, group_said};
ghost use Rattle.control.specs.Followers.{decoded_follower, interrupt_followers, ahead, listed};
ghost use Rattle.control.specs.Laws.{Exact};
ghost use Rattle.control.specs.Tables.{entry_of, ruled, due_after, decoded, at_place, table_decoded};

use crate::bits::*;
use crate::decoded::{ControlByte, Decoded};
use crate::fault::{DecodeFault, TableFault};
use crate::fields::{InterruptControl, Level, Mode, PortName, Space, Timing};
use crate::first::First;
use crate::follower::{Follower, FollowerByte, Followers};
use crate::table::{Entry, TABLE};

// The table, whose rule holds over the whole of it.
fn whole_table() -> &'static [Entry; 256]
    ensures { result.now ≡ ruled entry_of 0 256 }
{
    &TABLE
}

// The group of a first byte and the followers it announces, as the table has them.
pub fn entry(byte: u8) -> Entry
    ensures whole { result ≡ entry_of byte }
    ensures order { listed result.followers ≡ followers_of byte }
{
    // `as`: tried by `usize::from`, with which the proof did not close
    whole_table()[byte as usize]
}

// What a first byte says: exactly the meaning whose bits it has.
#[tactic(auto, using(crate::proofs::Exactly::said_if, crate::proofs::Exactly::says_if, crate::proofs::Exactly::same_group))]
pub fn decode_first(byte: u8) -> Result<First, DecodeFault>
    ensures said { result ≡ decoded_first byte }
    ensures group { group_said result ≡ group_of byte }
    ensures exact { Exact byte result }
{
    by_bit_fields(byte)
}

// The groups in their order; the mode that is not allowed is an arm of its own.
fn by_bit_fields(byte: u8) -> Result<First, DecodeFault>
    ensures { result ≡ decoded_first byte }
{
    match byte {
        b if b & 0x80 == 0 && b & 0x03 != 0 => Ok(First::Wr0 {
            class: class(b),
            source: by_bit(b, 0x04, PortName::A, PortName::B),
        }),
        b if b & 0x87 == 0x04 => Ok(First::Wr1 {
            space: by_bit(b, 0x08, Space::Io, Space::Memory),
            rule: rule(b),
        }),
        b if b & 0x87 == 0x00 => Ok(First::Wr2 {
            space: by_bit(b, 0x08, Space::Io, Space::Memory),
            rule: rule(b),
        }),
        b if b & 0x83 == 0x80 => Ok(First::Wr3 {
            stop_on_match: b & 0x04 != 0,
            interrupts: b & 0x20 != 0,
            enable: b & 0x40 != 0,
        }),
        b if b & 0x83 == 0x81 && b & 0x60 == 0x00 => Ok(First::Wr4 { mode: Mode::Byte }),
        b if b & 0x83 == 0x81 && b & 0x60 == 0x20 => Ok(First::Wr4 {
            mode: Mode::Continuous,
        }),
        b if b & 0x83 == 0x81 && b & 0x60 == 0x40 => Ok(First::Wr4 { mode: Mode::Burst }),
        b if b & 0x83 == 0x81 => Err(DecodeFault::BadMode),
        b if b & 0xC7 == 0x82 => Ok(First::Wr5 {
            ready: by_bit(b, 0x08, Level::High, Level::Low),
            heed_waits: b & 0x10 != 0,
            auto_restart: b & 0x20 != 0,
        }),
        b => wr6(b),
    }
}

// What a byte says where this follower is due.
pub fn decode_follower(follower: Follower, byte: u8) -> Result<FollowerByte, DecodeFault>
    ensures { result ≡ decoded_follower follower byte }
{
    match follower {
        Follower::ALow => Ok(FollowerByte::ALow(byte)),
        Follower::AHigh => Ok(FollowerByte::AHigh(byte)),
        Follower::LengthLow => Ok(FollowerByte::LengthLow(byte)),
        Follower::LengthHigh => Ok(FollowerByte::LengthHigh(byte)),
        Follower::ATiming => Ok(FollowerByte::ATiming(Timing::try_from(byte)?)),
        Follower::BTiming => Ok(FollowerByte::BTiming(Timing::try_from(byte)?)),
        Follower::Mask => Ok(FollowerByte::Mask(byte)),
        Follower::Match => Ok(FollowerByte::Match(byte)),
        Follower::BLow => Ok(FollowerByte::BLow(byte)),
        Follower::BHigh => Ok(FollowerByte::BHigh(byte)),
        Follower::Interrupt => Ok(FollowerByte::Interrupt(InterruptControl::try_from(byte)?)),
        Follower::Pulse => Ok(FollowerByte::Pulse(byte)),
        Follower::Vector => Ok(FollowerByte::Vector(byte)),
        Follower::ReadMask if byte & 0x80 == 0 => Ok(FollowerByte::ReadMask(byte)),
        Follower::ReadMask => Err(DecodeFault::BadReadMask),
    }
}

// The followers of an interrupt control in front of those due after it.
fn after_interrupt_control(byte: u8, rest: Followers) -> Followers
    ensures { result ≡ ahead (interrupt_followers byte) rest }
{
    let rest = by_bit(byte, 0x10, rest.in_front(Follower::Vector), rest);
    by_bit(byte, 0x08, rest.in_front(Follower::Pulse), rest)
}

// The followers due after this one, which came with this byte.
fn due_after(follower: Follower, byte: u8, rest: Followers) -> Followers
    ensures { result ≡ due_after follower byte rest }
{
    match follower {
        Follower::Interrupt => after_interrupt_control(byte, rest),
        _ => rest,
    }
}

// A control byte with these followers due: the next of them, or a first byte.
pub fn decode(due: Followers, byte: u8) -> Result<Decoded, DecodeFault>
    ensures { result ≡ decoded due byte }
{
    match due.next() {
        None => Ok(Decoded {
            control: ControlByte::First(decode_first(byte)?),
            due: entry(byte).followers,
        }),
        Some(follower) => Ok(Decoded {
            control: ControlByte::Follower(decode_follower(follower, byte)?),
            due: due_after(follower, byte, due.rest()),
        }),
    }
}

// One byte of a table, at its place: the followers due after it.
fn decode_at(place: usize, due: Followers, byte: u8) -> Result<Followers, TableFault<DecodeFault>>
    ensures { result ≡ at_place place due (decoded due byte) }
{
    decode(due, byte)
        .map(|taken| taken.due)
        .map_err(|fault| TableFault {
            place,
            due: due.next(),
            fault,
        })
}

// A table of control bytes, from no follower due: those due at its end.
pub fn decode_table(bytes: &[u8]) -> Result<Followers, TableFault<DecodeFault>>
    ensures { result ≡ table_decoded 0 Followers.Zero bytes.now }
{
    let mut due = Followers::Zero;
    for (place, byte) in bytes.iter().enumerate() {
        due = decode_at(place, due, *byte)?;
    }
    Ok(due)
}
