// What every accepted byte does, and enabling.
ghost use Rattle.std.specs.Prelude.{◌≡◌, if◌then◌else◌, Ok, Err, ◌==◌, nat_lt};
ghost use Rattle.registers.specs.declared.fault.ChannelFault.TheVariants.{LengthZero, CountAboveLength};
ghost use Rattle.registers.specs.Firsts.{accepted, enabled_by};

use control::follower::Followers;
use registers::fault::ChannelFault;
use registers::row::{Registers, Sequence};

// An accepted byte disables the channel; these followers are due after it.
pub(crate) fn accept(due: Followers, registers: &mut Registers)
    ensures { registers.new ≡ accepted due registers.old }
{
    registers.sequence = Sequence {
        due,
        enabling: false,
    };
    registers.progress.enabled = false;
}

// Whether the channel may be enabled, or why not.
pub(crate) fn may_enable(registers: &Registers) -> Result<(), ChannelFault>
    ensures { result ≡ (if registers.now.program.length == 0 then Err LengthZero else (if nat_lt registers.now.program.length registers.now.progress.count then Err CountAboveLength else Ok tt)) }
{
    if registers.program.length == 0 {
        Err(ChannelFault::LengthZero)
    } else if registers.progress.count > u32::from(registers.program.length) {
        Err(ChannelFault::CountAboveLength)
    } else {
        Ok(())
    }
}

// Enabled at once, or by the group's last byte.
pub(crate) fn enable_by(due: Followers, registers: &mut Registers)
    ensures { registers.new ≡ enabled_by due registers.old }
{
    let last = matches!(due, Followers::Zero);
    registers.sequence = Sequence {
        due,
        enabling: !last,
    };
    registers.progress.enabled = last;
}
