// T-cycles and waits. A timing and a space go side by side: no struct for two plain values of three short functions.
ghost use Rattle.std.specs.Prelude.{◌≡◌};
ghost use Rattle.registers.specs.Times.{base_time, takes_waits, time_of, timing_of};

use crate::ports::{of_port, other};
use control::fields::{Space, Timing};
use registers::answer::Kind;
use registers::manner::Manner;
use registers::program::Program;

// The T-cycles of a cycle without waits.
pub(crate) fn base_time(timing: Option<Timing>, space: Space) -> u8
    ensures { result ≡ base_time timing space }
{
    match (timing, space) {
        (Some(timing), _) => timing.t_cycles(),
        (None, Space::Memory) => 3,
        (None, Space::Io) => 4,
    }
}

// Whether waits lengthen a cycle.
pub(crate) fn takes_waits(timing: Option<Timing>, space: Space) -> bool
    ensures { result ≡ takes_waits timing space }
{
    !matches!(
        (timing, space),
        (Some(Timing::Two), _) | (Some(Timing::Three), Space::Io)
    )
}

// The T-cycles of a read or a write, where waits are heeded or not.
pub(crate) fn time_of(heed: bool, timing: Option<Timing>, space: Space, waits: u8) -> u16
    ensures { result ≡ time_of heed timing space waits }
{
    let base = u16::from(base_time(timing, space));
    if heed && takes_waits(timing, space) {
        base + u16::from(waits)
    } else {
        base
    }
}

// The timing of a cycle: that of its port.
pub(crate) fn timing_of(kind: Kind, program: &Program, manner: &Manner) -> Option<Timing>
    ensures { result ≡ timing_of kind program.now manner.now }
{
    match kind {
        Kind::Read => of_port(program.source, manner.a, manner.b),
        Kind::Write => of_port(other(program.source), manner.a, manner.b),
        Kind::Idle | Kind::Release => None,
    }
}
