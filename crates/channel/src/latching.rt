// The latches after a read or a write.
ghost use Rattle.std.specs.Prelude.{◌≡◌};
ghost use Rattle.registers.specs.Bytes.{latches_after};

use crate::marks::{ends_block, finishes};
use registers::answer::Mark;
use registers::latches::Latches;
use registers::program::Program;

// A match or an end latches its status, and its cause where its interrupt is on.
pub(crate) fn latch(program: &Program, mark: Mark, matched: bool, latches: &mut Latches)
    ensures { latches.new ≡ latches_after program.now mark matched latches.old }
{
    let control = program.signals.control;
    let ended = ends_block(mark);
    latches.moved |= finishes(mark);
    latches.matched |= matched;
    latches.ended |= ended;
    latches.causes.matched |= matched && control.on_match;
    latches.causes.ended |= ended && control.on_end;
}
