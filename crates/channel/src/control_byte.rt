// What a decoded control byte does.
ghost use Rattle.std.specs.Prelude.{◌≡◌};
ghost use Rattle.channel.specs.Values.{done_of, answered};
ghost use Rattle.registers.specs.Writes.{control_did};

use crate::first_byte::apply_first;
use crate::follower_byte::apply_follower;
use control::decoded::{ControlByte, Decoded};
use registers::chip::Chip;
use registers::fault::ChannelFault;

// What the byte does, with the followers due after it. A refusal changes nothing.
pub fn apply_control(decoded: Decoded, chip: &mut Chip) -> Result<(), ChannelFault>
    ensures { done_of result chip.new ≡ answered (control_did decoded.control decoded.due chip.old) chip.old }
{
    match decoded.control {
        ControlByte::First(first) => apply_first(first, decoded.due, chip),
        ControlByte::Follower(follower) => {
            apply_follower(follower, decoded.due, chip);
            Ok(())
        }
    }
}
