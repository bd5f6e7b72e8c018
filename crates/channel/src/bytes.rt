// A byte's read and its write: what they answer, and what they do to the progress and to the spaces.
// The program goes beside the progress and not with it: a byte changes the progress (`&mut`) and never the program (`&`).
ghost use Rattle.std.specs.Prelude.{◌≡◌, ◌≤◌};
ghost use Rattle.channel.specs.Values.{contents_of, frames_of, step_of, advanced};
ghost use Rattle.control.specs.declared.fields.Class.TheVariants.{Transfer};
ghost use Rattle.registers.specs.Bytes.{taken_in, put_out, read_step, write_step};

use crate::finishing::{finish, finished_mark, is_last, pulsed};
use crate::matching::matches;
use crate::ports::{address_of, moved, of_port, other};
use crate::step::Step;
use crate::two_spaces::TwoSpaces;
use control::fields::{Class, PortName};
use registers::answer::{Kind, Mark, Move};
use registers::program::Program;
use registers::progress::Progress;
use spaces::device::DeviceSpace;
use spaces::memory::Memory;

// The port's counter is moved.
fn advance(port: PortName, program: &Program, progress: &mut Progress)
    ensures { progress.new ≡ advanced port program.now progress.old }
{
    match port {
        PortName::A => progress.a = moved(program.a.rule, progress.a),
        PortName::B => progress.b = moved(program.b.rule, progress.b),
    }
}

// After a read: the source's counter is moved; the byte held, the byte to compare, whether a match stops the channel.
fn take_in(
    program: &Program,
    held: Option<u8>,
    compare: Option<u8>,
    stopping: bool,
    progress: &mut Progress,
)
    ensures { progress.new ≡ taken_in program.now held compare stopping progress.old }
{
    advance(program.source, program, progress);
    progress.held = held;
    progress.compare = compare;
    progress.stopping = stopping;
}

// After a write: the destination's counter is moved.
fn put_out(program: &Program, progress: &mut Progress)
    ensures { progress.new ≡ put_out program.now progress.old }
{
    advance(other(program.source), program, progress);
}

// The byte asked of the source, as an answer that finishes nothing.
fn ask_source<M: Memory, D: DeviceSpace>(
    program: &Program,
    progress: &Progress,
    spaces: &mut TwoSpaces<M, D>,
) -> Move
    ensures made { result ≡ (read_step Transfer program.now progress.now (contents_of M.cells D.ports spaces.old)).move }
    ensures after { contents_of M.cells D.ports spaces.new ≡ (read_step Transfer program.now progress.now (contents_of M.cells D.ports spaces.old)).contents }
    ensures frames { frames_of M.frame D.frame spaces.new ≡ frames_of M.frame D.frame spaces.old }
{
    let space = of_port(program.source, program.a, program.b).space;
    let counter = of_port(program.source, progress.a, progress.b);
    Move {
        kind: Kind::Read,
        space,
        address: address_of(space, counter),
        byte: spaces.fetch(space, counter),
        mark: Mark::Unfinished,
        pulse: false,
    }
}

// A byte's read at the source. A transfer holds its byte until it is written; a search finishes it at once.
pub(crate) fn read_byte<M: Memory, D: DeviceSpace>(
    program: &Program,
    progress: &mut Progress,
    spaces: &mut TwoSpaces<M, D>,
) -> Step
    requires { progress.old.count ≤ 65535 }
    ensures step { step_of result progress.new (contents_of M.cells D.ports spaces.new) ≡ read_step program.now.class program.now progress.old (contents_of M.cells D.ports spaces.old) }
    ensures frames { frames_of M.frame D.frame spaces.new ≡ frames_of M.frame D.frame spaces.old }
{
    let mut made = ask_source(program, progress, spaces);
    let byte = Some(made.byte);
    let matched = program.class != Class::Transfer && matches(program, progress.compare);
    let stopping = program.search.stop && matched;
    match program.class {
        Class::Transfer => take_in(program, byte, None, false, progress),
        Class::Both => take_in(program, byte, byte, stopping, progress),
        Class::Search => {
            take_in(program, None, byte, stopping, progress);
            made.mark = finished_mark(is_last(program, progress), stopping);
            made.pulse = pulsed(program, progress);
            finish(program, progress);
        }
    }
    Step { made, matched }
}

// The write of a byte at the destination.
pub(crate) fn write_byte<M: Memory, D: DeviceSpace>(
    program: &Program,
    byte: u8,
    progress: &mut Progress,
    spaces: &mut TwoSpaces<M, D>,
) -> Step
    requires { progress.old.count ≤ 65535 }
    ensures step { step_of result progress.new (contents_of M.cells D.ports spaces.new) ≡ write_step program.now byte progress.old (contents_of M.cells D.ports spaces.old) }
    ensures frames { frames_of M.frame D.frame spaces.new ≡ frames_of M.frame D.frame spaces.old }
{
    let destination = other(program.source);
    let space = of_port(destination, program.a, program.b).space;
    let counter = of_port(destination, progress.a, progress.b);
    spaces.store(space, counter, byte);
    let made = Move {
        kind: Kind::Write,
        space,
        address: address_of(space, counter),
        byte,
        mark: finished_mark(is_last(program, progress), progress.stopping),
        pulse: pulsed(program, progress),
    };
    put_out(program, progress);
    finish(program, progress);
    Step {
        made,
        matched: false,
    }
}
