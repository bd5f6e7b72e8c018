// Source and destination of a block, and how a port's counter moves.
ghost use Rattle.std.specs.Prelude.{◌≡◌, ◌%◌};
ghost use Rattle.registers.specs.Ports.{of_port, other, address_of, moved};

use control::fields::{AddressRule, PortName, Space};

// Of two things, that of the port named.
pub(crate) fn of_port<T: Copy>(name: PortName, a: T, b: T) -> T
    ensures { result ≡ of_port name a b }
{
    match name {
        PortName::A => a,
        PortName::B => b,
    }
}

// The other port.
pub(crate) fn other(name: PortName) -> PortName
    ensures { result ≡ other name }
{
    match name {
        PortName::A => PortName::B,
        PortName::B => PortName::A,
    }
}

// The port that the counter names: its low 8 bits.
pub(crate) fn port_of(counter: u16) -> u8
    ensures { result ≡ counter % 256 }
{
    let [low, _] = counter.to_le_bytes();
    low
}

// The address of a cycle.
pub(crate) fn address_of(space: Space, counter: u16) -> u16
    ensures { result ≡ address_of space counter }
{
    match space {
        Space::Memory => counter,
        Space::Io => u16::from(port_of(counter)),
    }
}

// A counter after a byte.
pub(crate) fn moved(rule: AddressRule, counter: u16) -> u16
    ensures { result ≡ moved rule counter }
{
    match rule {
        AddressRule::Decrement => counter.wrapping_sub(1),
        AddressRule::Increment => counter.wrapping_add(1),
        AddressRule::Fixed => counter,
    }
}
