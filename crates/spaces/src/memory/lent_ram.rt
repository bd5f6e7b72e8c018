// Lent RAM: a lent slice from a first address on. The part of it past the last address is never touched.
ghost use Rattle.std.specs.Prelude.{◌≡◌, length};
ghost use Rattle.spaces.specs.Cells.{ram, place, stored, put};
ghost use Rattle.spaces.specs.Memories.{lent_ram, lent_ram_frame};

use crate::memory::Memory;

#[derive(Drop)]
pub struct LentRam<'a> {
    first: u16,
    // the same slice through every call, as each call says: no invariant can, since it is a fact of two states
    bytes: &'a mut [u8],
}

impl<'a> LentRam<'a> {
    pub fn new(first: u16, bytes: &'a mut [u8]) -> LentRam<'a>
        ensures meaning { lent_ram result ≡ ram first bytes.old }
        ensures first { result.first ≡ first }
        ensures slice { result.bytes.now ≡ bytes.old }
        ensures lent { result.bytes.ghost_name ≡ bytes.entry.ghost_name }
    {
        LentRam { first, bytes }
    }

    // The slice, back from its loan.
    pub fn into_bytes(self) -> &'a mut [u8]
        ensures slice { result.now ≡ self.entry.bytes.now }
        ensures lent { result.ghost_name ≡ self.entry.bytes.ghost_name }
    {
        self.bytes
    }

    // The place in the slice that an address shows, if it shows one.
    fn place(&self, address: u16) -> Option<usize>
        ensures { result ≡ place self.now.first (length self.now.bytes.now) address }
    {
        let i = usize::from(address.checked_sub(self.first)?);
        (i < self.bytes.len()).then_some(i)
    }
}

impl<'a> Memory for LentRam<'a> {
    ghost cells = { lent_ram };

    ghost frame = { lent_ram_frame };

    fn read(&self, address: u16) -> u8 {
        match self.place(address) {
            Some(i) => self.bytes[i],
            None => 0xff,
        }
    }

    fn write(&mut self, address: u16, byte: u8)
        ensures after { lent_ram self.new ≡ put (lent_ram self.old) address byte }
        ensures frame { lent_ram_frame self.new ≡ lent_ram_frame self.old }
        ensures slice { self.new.bytes.now ≡ stored self.old.first self.old.bytes.now address byte }
        ensures lent { self.new.bytes.ghost_name ≡ self.old.bytes.ghost_name }
    {
        // by index: after the `get_mut` of a slice, as tried in the ring, a proof knows no element of it
        if let Some(i) = self.place(address) {
            self.bytes[i] = byte;
        }
    }
}
