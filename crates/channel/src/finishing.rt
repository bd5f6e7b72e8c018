// The end of a byte: its mark, its pulse, and what a block's end or a stop does. Program and progress go side by side, as
// in a byte's read and write.
ghost use Rattle.std.specs.Prelude.{◌≡◌, ◌≤◌};
ghost use Rattle.registers.specs.Bytes.{finished_mark, is_last, pulsed, closed, finished};

use crate::loading::load;
use registers::answer::Mark;
use registers::program::Program;
use registers::progress::Progress;

// The mark of a finished byte.
pub(crate) fn finished_mark(ended: bool, stopped: bool) -> Mark
    ensures { result ≡ finished_mark ended stopped }
{
    match (ended, stopped) {
        (false, false) => Mark::Finished,
        (true, false) => Mark::Ended,
        (false, true) => Mark::Stopped,
        (true, true) => Mark::Both,
    }
}

// Whether the block ends with the byte after those counted.
pub(crate) fn is_last(program: &Program, progress: &Progress) -> bool
    ensures { result ≡ is_last program.now progress.now }
{
    progress.count == u32::from(program.length)
}

// Whether a pulse comes with the byte after those counted.
pub(crate) fn pulsed(program: &Program, progress: &Progress) -> bool
    requires { progress.now.count ≤ 65535 }
    ensures { result ≡ pulsed program.now progress.now }
{
    let signals = program.signals;
    signals.control.pulses && (progress.count + 1) % 256 == u32::from(signals.pulse)
}

// One byte more is finished.
pub(crate) fn finish(program: &Program, progress: &mut Progress)
    requires { progress.old.count ≤ 65535 }
    ensures { progress.new ≡ finished program.now progress.old }
{
    let ended = is_last(program, progress);
    let stopped = progress.stopping;
    progress.count += 1;
    progress.held = None;
    progress.stopping = false;
    close(ended, stopped, program, progress);
}

// An end reloads or disables; a stop disables in either case.
#[tactic(auto, unfolding(registers::specs::Bytes::closed))]
fn close(ended: bool, stopped: bool, program: &Program, progress: &mut Progress)
    ensures { progress.new ≡ closed ended stopped program.now.restart program.now progress.old }
{
    if ended {
        if program.restart {
            load(program, progress);
        } else {
            progress.compare = None;
            progress.enabled = false;
        }
    }
    if stopped {
        progress.enabled = false;
    }
}
