// A latch bank: every port has its own rest byte, and keeps the byte last written to it.
// A write never changes what a read answers: the rest byte is fixed, the kept byte is what the diverter sees.
ghost use Rattle.std.specs.Prelude.{◌≡◌, replicate, None, slice_index_or};
ghost use Rattle.spaces.specs.Cells.{no_frame};
ghost use Rattle.spaces.specs.Devices.{latches, latch_bank};

use crate::device::DeviceSpace;

#[derive(Drop)]
pub struct LatchBank {
    // two arrays: the one is given whole, the other begins empty
    rests: [u8; 256],
    held: [Option<u8>; 256],
}

impl LatchBank {
    pub fn new(rests: [u8; 256]) -> LatchBank
        ensures { latch_bank result ≡ latches rests (replicate 256 None) }
    {
        LatchBank {
            rests,
            held: [None; 256],
        }
    }

    // The byte that a port keeps, if any was written to it.
    pub fn latched(&self, port: u8) -> Option<u8>
        ensures { result ≡ slice_index_or self.now.held port None }
    {
        self.held[usize::from(port)]
    }
}

impl DeviceSpace for LatchBank {
    ghost ports = { latch_bank };

    ghost frame = { λ _. no_frame };

    fn read(&mut self, port: u8) -> u8 {
        self.rests[usize::from(port)]
    }

    fn write(&mut self, port: u8, byte: u8) {
        self.held[usize::from(port)] = Some(byte);
    }
}
