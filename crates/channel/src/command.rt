// The commands of WR6.
ghost use Rattle.std.specs.Prelude.{◌≡◌, false};
ghost use Rattle.channel.specs.Values.{done_of, answered};
ghost use Rattle.registers.specs.Chips.{no_causes, with_causes, with_latches, with_service};
ghost use Rattle.registers.specs.Firsts.{status_cleared, command_did};

use crate::enabling::{accept, enable_by, may_enable};
use crate::interrupts::no_causes;
use crate::loading::{continue_count, load};
use crate::power_on::chip_at_power_on;
use crate::read_out::start_read_out;
use control::first::Command;
use control::follower::Followers;
use registers::chip::Chip;
use registers::fault::ChannelFault;
use registers::latches::Latches;
use registers::row::{Registers, Service};

// Interrupts off, causes and service cleared.
fn reset_interrupts(registers: &mut Registers)
    ensures { registers.new ≡ with_service (record { interrupts = false; serving = false }) (with_latches (with_causes no_causes registers.old.latches) registers.old) }
{
    registers.service = Service {
        interrupts: false,
        serving: false,
    };
    registers.latches.causes = no_causes();
}

fn clear_status(latches: &mut Latches)
    ensures { latches.new ≡ status_cleared latches.old }
{
    latches.moved = false;
    latches.matched = false;
    latches.ended = false;
}

// What a command does, with the followers due after it. A refusal changes nothing.
pub(crate) fn apply_command(
    command: Command,
    due: Followers,
    chip: &mut Chip,
) -> Result<(), ChannelFault>
    ensures { done_of result chip.new ≡ answered (command_did command due chip.old) chip.old }
{
    let registers = &mut chip.registers;
    match command {
        Command::PowerOn => {
            *chip = chip_at_power_on();
            return Ok(());
        }
        Command::DefaultTimingA => registers.manner.a = None,
        Command::DefaultTimingB => registers.manner.b = None,
        Command::Load => {
            load(&registers.program, &mut registers.progress);
            chip.forcing.forced = false;
        }
        Command::Continue => continue_count(&mut registers.progress),
        Command::InterruptsOff => registers.service.interrupts = false,
        Command::InterruptsOn => registers.service.interrupts = true,
        Command::InterruptsReset => reset_interrupts(registers),
        Command::Enable => {
            may_enable(registers)?;
            enable_by(due, registers);
            return Ok(());
        }
        Command::Disable | Command::ReadMask => {}
        Command::StartReadOut => start_read_out(chip.readout.mask, &mut chip.readout)?,
        Command::ReadStatus => start_read_out(1, &mut chip.readout)?,
        Command::ClearStatus => clear_status(&mut registers.latches),
        Command::ForceReady => chip.forcing.forced = true,
    }
    accept(due, registers);
    Ok(())
}
