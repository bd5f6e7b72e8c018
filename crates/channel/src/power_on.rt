// The records at power-on.
ghost use Rattle.std.specs.Prelude.{◌≡◌};
ghost use Rattle.registers.specs.Chips.{power_on, program_at_power_on, port_at_power_on};

use crate::interrupts::no_causes;
use control::fields::{AddressRule, Class, InterruptControl, Level, Mode, PortName, Space};
use control::follower::Followers;
use registers::chip::Chip;
use registers::latches::Latches;
use registers::manner::Manner;
use registers::program::{Port, Program, Search, Signals};
use registers::progress::Progress;
use registers::read_out::{Forcing, ReadOut};
use registers::row::{Loan, Registers, Sequence, Service};

fn port_at_power_on() -> Port
    ensures { result ≡ port_at_power_on }
{
    Port {
        space: Space::Memory,
        rule: AddressRule::Increment,
        start: 0,
    }
}

fn signals_at_power_on() -> Signals
    ensures { result ≡ program_at_power_on.signals }
{
    Signals {
        control: InterruptControl {
            on_match: false,
            on_end: false,
            pulses: false,
            status_in_vector: false,
        },
        pulse: 0,
        vector: 0,
    }
}

fn program_at_power_on() -> Program
    ensures { result ≡ program_at_power_on }
{
    Program {
        class: Class::Transfer,
        source: PortName::A,
        a: port_at_power_on(),
        b: port_at_power_on(),
        length: 0,
        search: Search {
            mask: 0,
            pattern: 0,
            stop: false,
        },
        signals: signals_at_power_on(),
        restart: false,
    }
}

fn manner_at_power_on() -> Manner
    ensures { result ≡ power_on.registers.manner }
{
    Manner {
        mode: Mode::Byte,
        a: None,
        b: None,
        ready: Level::Low,
        heed: false,
    }
}

fn progress_at_power_on() -> Progress
    ensures { result ≡ power_on.registers.progress }
{
    Progress {
        a: 0,
        b: 0,
        count: 0,
        held: None,
        compare: None,
        stopping: false,
        enabled: false,
    }
}

fn latches_at_power_on() -> Latches
    ensures { result ≡ power_on.registers.latches }
{
    Latches {
        moved: false,
        matched: false,
        ended: false,
        causes: no_causes(),
    }
}

pub fn registers_at_power_on() -> Registers
    ensures { result ≡ power_on.registers }
{
    Registers {
        program: program_at_power_on(),
        manner: manner_at_power_on(),
        progress: progress_at_power_on(),
        latches: latches_at_power_on(),
        service: Service {
            interrupts: false,
            serving: false,
        },
        sequence: Sequence {
            due: Followers::Zero,
            enabling: false,
        },
        loan: Loan::Closed,
    }
}

pub fn readout_at_power_on() -> ReadOut
    ensures { result ≡ power_on.readout }
{
    ReadOut {
        mask: 0x7F,
        unread: 0,
    }
}

pub fn forcing_at_power_on() -> Forcing
    ensures { result ≡ power_on.forcing }
{
    Forcing { forced: false }
}

// All of a channel at power-on.
pub fn chip_at_power_on() -> Chip
    ensures { result ≡ power_on }
{
    Chip {
        registers: registers_at_power_on(),
        readout: readout_at_power_on(),
        forcing: forcing_at_power_on(),
    }
}
