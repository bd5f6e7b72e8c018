// What a first byte does, by its group.
ghost use Rattle.std.specs.Prelude.{◌≡◌};
ghost use Rattle.channel.specs.Values.{done_of, answered};
ghost use Rattle.registers.specs.Firsts.{with_kind, with_wr3, first_did};

use crate::command::apply_command;
use crate::enabling::{accept, enable_by, may_enable};
use control::fields::{AddressRule, Space};
use control::first::First;
use control::follower::Followers;
use registers::chip::Chip;
use registers::fault::ChannelFault;
use registers::program::Port;
use registers::row::Registers;

// WR1 and WR2: a port's space and rule, its start as it was.
fn set_kind(space: Space, rule: AddressRule, port: &mut Port)
    ensures { port.new ≡ with_kind space rule port.old }
{
    port.space = space;
    port.rule = rule;
}

// WR3: stop on match, interrupts on or off.
fn set_wr3(stop: bool, interrupts: bool, registers: &mut Registers)
    ensures { registers.new ≡ with_wr3 stop interrupts registers.old }
{
    registers.program.search.stop = stop;
    registers.service.interrupts = interrupts;
}

// What a first byte does, with the followers due after it. A refusal changes nothing.
pub(crate) fn apply_first(first: First, due: Followers, chip: &mut Chip) -> Result<(), ChannelFault>
    ensures { done_of result chip.new ≡ answered (first_did first due chip.old) chip.old }
{
    let registers = &mut chip.registers;
    match first {
        First::Wr0 { class, source } => {
            registers.program.class = class;
            registers.program.source = source;
        }
        First::Wr1 { space, rule } => set_kind(space, rule, &mut registers.program.a),
        First::Wr2 { space, rule } => set_kind(space, rule, &mut registers.program.b),
        First::Wr3 {
            stop_on_match,
            interrupts,
            enable: false,
        } => set_wr3(stop_on_match, interrupts, registers),
        First::Wr3 {
            stop_on_match,
            interrupts,
            enable: true,
        } => {
            may_enable(registers)?;
            set_wr3(stop_on_match, interrupts, registers);
            enable_by(due, registers);
            return Ok(());
        }
        First::Wr4 { mode } => registers.manner.mode = mode,
        First::Wr5 {
            ready,
            heed_waits,
            auto_restart,
        } => {
            registers.manner.ready = ready;
            registers.manner.heed = heed_waits;
            registers.program.restart = auto_restart;
        }
        First::Wr6(command) => return apply_command(command, due, chip),
    }
    accept(due, registers);
    Ok(())
}
