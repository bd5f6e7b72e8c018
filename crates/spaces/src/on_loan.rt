// A memory on loan is a memory, and a device space on loan a device space: code that wants one of its own takes a
// borrowed one too. Its frame says which loan it is, so that the lender knows its space again.
ghost use Rattle.spaces.specs.Loans.{lent_frame};

use crate::device::DeviceSpace;
use crate::memory::Memory;

impl<M: Memory> Memory for &mut M {
    ghost cells = { λ m. M.cells m.now };

    ghost frame = { lent_frame M.frame };

    fn read(&self, address: u16) -> u8 {
        Memory::read(&**self, address)
    }

    fn write(&mut self, address: u16, byte: u8) {
        Memory::write(&mut **self, address, byte);
    }
}

impl<D: DeviceSpace> DeviceSpace for &mut D {
    ghost ports = { λ d. D.ports d.now };

    ghost frame = { lent_frame D.frame };

    fn read(&mut self, port: u8) -> u8 {
        DeviceSpace::read(&mut **self, port)
    }

    fn write(&mut self, port: u8, byte: u8) {
        DeviceSpace::write(&mut **self, port, byte);
    }
}
