// What a follower does.
ghost use Rattle.std.specs.Prelude.{◌≡◌};
ghost use Rattle.registers.specs.Chips.{with_registers, with_readout};
ghost use Rattle.registers.specs.Writes.{low_as, high_as, follower_set, mask_set, follower_did};

use crate::enabling::{accept, enable_by};
use control::follower::{FollowerByte, Followers};
use registers::chip::Chip;

fn low_as(byte: u8, number: u16) -> u16
    ensures { result ≡ low_as byte number }
{
    let [_, high] = number.to_le_bytes();
    u16::from_le_bytes([byte, high])
}

fn high_as(byte: u8, number: u16) -> u16
    ensures { result ≡ high_as byte number }
{
    let [low, _] = number.to_le_bytes();
    u16::from_le_bytes([low, byte])
}

// The register that a follower sets: of the program or the manner, or the read mask, which leaves the marks as they are.
fn set_follower(follower: FollowerByte, chip: &mut Chip)
    ensures { chip.new ≡ with_readout (mask_set follower chip.old.readout) (with_registers (follower_set follower chip.old.registers) chip.old) }
{
    let program = &mut chip.registers.program;
    let manner = &mut chip.registers.manner;
    match follower {
        FollowerByte::ALow(byte) => program.a.start = low_as(byte, program.a.start),
        FollowerByte::AHigh(byte) => program.a.start = high_as(byte, program.a.start),
        FollowerByte::LengthLow(byte) => program.length = low_as(byte, program.length),
        FollowerByte::LengthHigh(byte) => program.length = high_as(byte, program.length),
        FollowerByte::ATiming(timing) => manner.a = Some(timing),
        FollowerByte::BTiming(timing) => manner.b = Some(timing),
        FollowerByte::Mask(byte) => program.search.mask = byte,
        FollowerByte::Match(byte) => program.search.pattern = byte,
        FollowerByte::BLow(byte) => program.b.start = low_as(byte, program.b.start),
        FollowerByte::BHigh(byte) => program.b.start = high_as(byte, program.b.start),
        FollowerByte::Interrupt(control) => program.signals.control = control,
        FollowerByte::Pulse(byte) => program.signals.pulse = byte,
        FollowerByte::Vector(byte) => program.signals.vector = byte,
        FollowerByte::ReadMask(byte) => chip.readout.mask = byte,
    }
}

// A follower, with the followers due after it: the group's last byte enables where its first byte asked for it.
pub(crate) fn apply_follower(follower: FollowerByte, due: Followers, chip: &mut Chip)
    ensures { chip.new ≡ follower_did follower due chip.old }
{
    set_follower(follower, chip);
    if chip.registers.sequence.enabling {
        enable_by(due, &mut chip.registers);
    } else {
        accept(due, &mut chip.registers);
    }
}
