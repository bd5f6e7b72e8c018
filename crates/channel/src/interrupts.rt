// Requests, vectors and service.
ghost use Rattle.std.specs.Prelude.{◌≡◌, false};
ghost use Rattle.registers.specs.Chips.{no_causes, with_service};
ghost use Rattle.registers.specs.Interrupts.{requested, cause_bits, vector_of, served};

use crate::read_out::bit;
use control::fields::Level;
use registers::latches::Causes;
use registers::row::Registers;

// Whether there is a request, at this level of IEI.
pub fn requested(iei: Level, registers: &Registers) -> bool
    ensures { result ≡ requested iei registers.now }
{
    let causes = registers.latches.causes;
    let service = registers.service;
    let caused = causes.matched || causes.ended;
    caused && service.interrupts && !service.serving && iei == Level::High
}

// Neither cause.
pub(crate) fn no_causes() -> Causes
    ensures { result ≡ no_causes }
{
    Causes {
        matched: false,
        ended: false,
    }
}

// D2 D1 of a vector with the status in it.
fn cause_bits(causes: Causes) -> u8
    ensures { result ≡ cause_bits causes }
{
    bit(causes.matched, 2) + bit(causes.ended, 4)
}

// The vector that an acknowledge answers.
pub fn vector(registers: &Registers) -> u8
    ensures { result ≡ vector_of registers.now }
{
    let signals = registers.program.signals;
    if signals.control.status_in_vector {
        signals.vector & 0xF9 | cause_bits(registers.latches.causes)
    } else {
        signals.vector
    }
}

// An acknowledge clears the causes and begins service.
pub fn serve(registers: &mut Registers)
    ensures { registers.new ≡ served registers.old }
{
    registers.latches.causes = no_causes();
    registers.service.serving = true;
}

// A return from interrupt ends service.
pub fn end_service(registers: &mut Registers)
    ensures { registers.new ≡ with_service (record { interrupts = registers.old.service.interrupts; serving = false }) registers.old }
{
    registers.service.serving = false;
}
