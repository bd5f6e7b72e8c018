// The two spaces of a board, and a byte between the channel and one of them.
ghost use Rattle.std.specs.Prelude.{◌≡◌};
ghost use Rattle.channel.specs.Values.{contents_of, frames_of};
ghost use Rattle.registers.specs.Contents.{byte_at, after_read, after_write};
ghost use Rattle.registers.specs.Ports.{address_of};

use crate::ports::port_of;
use control::fields::Space;
use spaces::device::DeviceSpace;
use spaces::memory::Memory;

// That a call leaves the frames as they were is a fact of two states, which each call says and no invariant can.
#[derive(Drop)]
pub struct TwoSpaces<M, D> {
    pub memory: M,
    pub devices: D,
}

impl<M: Memory, D: DeviceSpace> TwoSpaces<M, D> {
    // The byte that the space answers at the counter's address.
    pub(crate) fn fetch(&mut self, space: Space, counter: u16) -> u8
        ensures byte { result ≡ byte_at space (address_of space counter) (contents_of M.cells D.ports self.old) }
        ensures after { contents_of M.cells D.ports self.new ≡ after_read space (address_of space counter) (contents_of M.cells D.ports self.old) }
        ensures frames { frames_of M.frame D.frame self.new ≡ frames_of M.frame D.frame self.old }
    {
        match space {
            Space::Memory => self.memory.read(counter),
            Space::Io => self.devices.read(port_of(counter)),
        }
    }

    // Puts the byte into the space at the counter's address.
    pub(crate) fn store(&mut self, space: Space, counter: u16, byte: u8)
        ensures after { contents_of M.cells D.ports self.new ≡ after_write space (address_of space counter) byte (contents_of M.cells D.ports self.old) }
        ensures frames { frames_of M.frame D.frame self.new ≡ frames_of M.frame D.frame self.old }
    {
        match space {
            Space::Memory => self.memory.write(counter, byte),
            Space::Io => self.devices.write(port_of(counter), byte),
        }
    }
}
