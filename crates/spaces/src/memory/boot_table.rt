// A boot table: 256 given bytes from address 0 on, FFh above, nowhere writable. The card starts from it.
ghost use Rattle.std.specs.Prelude.{◌≡◌};
ghost use Rattle.spaces.specs.Cells.{no_frame, table};
ghost use Rattle.spaces.specs.Memories.{boot_table};

use crate::memory::Memory;

#[derive(Drop)]
pub struct BootTable {
    bytes: [u8; 256],
}

impl BootTable {
    pub fn new(bytes: [u8; 256]) -> BootTable
        ensures { boot_table result ≡ table bytes }
    {
        BootTable { bytes }
    }
}

impl Memory for BootTable {
    ghost cells = { boot_table };

    ghost frame = { λ _. no_frame };

    fn read(&self, address: u16) -> u8 {
        self.bytes
            .get(usize::from(address))
            .copied()
            .unwrap_or(0xff)
    }

    fn write(&mut self, _address: u16, _byte: u8) {}
}
