// Load and continue: where a block starts, and what it forgets. Program and progress go side by side, as in a byte's read
// and write.
ghost use Rattle.std.specs.Prelude.{◌≡◌};
ghost use Rattle.registers.specs.Bytes.{loaded, continued};
ghost use Rattle.registers.specs.Ports.{loaded_destination};

use control::fields::{AddressRule, PortName};
use registers::program::Program;
use registers::progress::Progress;

// The count is 0 and the byte to compare is forgotten.
pub(crate) fn continue_count(progress: &mut Progress)
    ensures { progress.new ≡ continued progress.old }
{
    progress.count = 0;
    progress.compare = None;
}

// The source's start to its counter, and the destination's unless that port is fixed; then as continue.
pub(crate) fn load(program: &Program, progress: &mut Progress)
    ensures { progress.new ≡ loaded program.now progress.old }
{
    match program.source {
        PortName::A => {
            progress.a = program.a.start;
            progress.b = loaded_destination(program.b.rule, program.b.start, progress.b);
        }
        PortName::B => {
            progress.a = loaded_destination(program.a.rule, program.a.start, progress.a);
            progress.b = program.b.start;
        }
    }
    continue_count(progress);
}

fn loaded_destination(rule: AddressRule, start: u16, counter: u16) -> u16
    ensures { result ≡ loaded_destination rule start counter }
{
    match rule {
        AddressRule::Decrement | AddressRule::Increment => start,
        AddressRule::Fixed => counter,
    }
}
