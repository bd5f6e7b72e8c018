// A cycle over a memory and a device space that are someone else's, who finds in them what the cycle made of them.
ghost use Rattle.std.specs.Prelude.{◌≡◌, ◌≤◌};
ghost use Rattle.channel.specs.Values.{cycled_of};
ghost use Rattle.registers.specs.Cycles.{cycled};

use channel::cycle::cycle;
use channel::two_spaces::TwoSpaces;
use registers::answer::Answer;
use registers::input::CycleInput;
use registers::row::Registers;
use spaces::device::DeviceSpace;
use spaces::memory::Memory;

pub(crate) fn cycle_over_borrowed<M: Memory, D: DeviceSpace>(
    forced: bool,
    input: CycleInput,
    registers: &mut Registers,
    memory: &mut M,
    devices: &mut D,
) -> Answer
    requires { registers.old.progress.count ≤ 65535 }
    ensures cycled { cycled_of result registers.new (record { cells = M.cells memory.new; ports = D.ports devices.new }) ≡ cycled forced input registers.old (record { cells = M.cells memory.old; ports = D.ports devices.old }) }
    ensures memory { M.frame memory.new ≡ M.frame memory.old }
    ensures devices { D.frame devices.new ≡ D.frame devices.old }
{
    let mut spaces = TwoSpaces { memory, devices };
    cycle(forced, input, registers, &mut spaces)
}
