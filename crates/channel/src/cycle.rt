// A cycle of the master: a write, a read or a pause.
ghost use Rattle.std.specs.Prelude.{◌≡◌, ◌≤◌};
ghost use Rattle.channel.specs.Values.{contents_of, frames_of, step_of, cycled_of};
ghost use Rattle.registers.specs.Bytes.{step};
ghost use Rattle.registers.specs.Chips.{with_loan};
ghost use Rattle.registers.specs.Cycles.{is_active, pause, pause_kind, loan_paused, worked, cycled};

use crate::bus::{loan_after, pause, pausing};
use crate::bytes::{read_byte, write_byte};
use crate::latching::latch;
use crate::step::Step;
use crate::timing::{time_of, timing_of};
use crate::two_spaces::TwoSpaces;
use control::fields::Level;
use registers::answer::Answer;
use registers::input::CycleInput;
use registers::manner::Manner;
use registers::program::Program;
use registers::progress::Progress;
use registers::row::Registers;
use spaces::device::DeviceSpace;
use spaces::memory::Memory;

// Whether Ready is active at this level of it. The latch that forces it is the channel's and the level the line's, so
// the two stay apart.
pub fn is_active(manner: &Manner, forced: bool, level: Level) -> bool
    ensures { result ≡ is_active manner.now forced level }
{
    level == manner.ready || forced
}

// The held byte is written; with none held one is read.
fn step<M: Memory, D: DeviceSpace>(
    program: &Program,
    progress: &mut Progress,
    spaces: &mut TwoSpaces<M, D>,
) -> Step
    requires { progress.old.count ≤ 65535 }
    ensures step { step_of result progress.new (contents_of M.cells D.ports spaces.new) ≡ step program.now progress.old (contents_of M.cells D.ports spaces.old) }
    ensures frames { frames_of M.frame D.frame spaces.new ≡ frames_of M.frame D.frame spaces.old }
{
    match progress.held {
        Some(byte) => write_byte(program, byte, progress, spaces),
        None => read_byte(program, progress, spaces),
    }
}

// A read or a write, with its T-cycles, the latches and the loan after it.
fn work<M: Memory, D: DeviceSpace>(
    waits: u8,
    registers: &mut Registers,
    spaces: &mut TwoSpaces<M, D>,
) -> Answer
    requires { registers.old.progress.count ≤ 65535 }
    ensures cycled { cycled_of result registers.new (contents_of M.cells D.ports spaces.new) ≡ worked waits registers.old (contents_of M.cells D.ports spaces.old) }
    ensures frames { frames_of M.frame D.frame spaces.new ≡ frames_of M.frame D.frame spaces.old }
{
    let Step { made, matched } = step(&registers.program, &mut registers.progress, spaces);
    latch(
        &registers.program,
        made.mark,
        matched,
        &mut registers.latches,
    );
    registers.loan = loan_after(registers.manner.mode, made.mark);
    let timing = timing_of(made.kind, &registers.program, &registers.manner);
    made.timed(time_of(registers.manner.heed, timing, made.space, waits))
}

// Idling or letting go.
fn rest(registers: &mut Registers) -> Answer
    ensures answer { result ≡ pause (pause_kind registers.old.manner.mode) }
    ensures registers { registers.new ≡ with_loan (loan_paused registers.old.manner.mode) registers.old }
{
    let (kind, loan) = pausing(registers.manner.mode);
    registers.loan = loan;
    pause(kind)
}

// The master writes its held byte, at any Ready level; else, Ready active, it reads the source; else it pauses.
pub fn cycle<M: Memory, D: DeviceSpace>(
    forced: bool,
    input: CycleInput,
    registers: &mut Registers,
    spaces: &mut TwoSpaces<M, D>,
) -> Answer
    requires { registers.old.progress.count ≤ 65535 }
    ensures cycled { cycled_of result registers.new (contents_of M.cells D.ports spaces.new) ≡ cycled forced input registers.old (contents_of M.cells D.ports spaces.old) }
    ensures memory { M.frame spaces.new.memory ≡ M.frame spaces.old.memory }
    ensures devices { D.frame spaces.new.devices ≡ D.frame spaces.old.devices }
{
    // the held byte is taken apart, by a rule of the project
    match registers.progress.held {
        Some(_) => work(input.waits, registers, spaces),
        None if is_active(&registers.manner, forced, input.ready) => {
            work(input.waits, registers, spaces)
        }
        None => rest(registers),
    }
}
