// A split of the addresses between any two memories: those below the border are the one's, the rest the other's.
ghost use Rattle.std.specs.Prelude.{◌≡◌, [], ◌∷◌};
ghost use Rattle.spaces.specs.Cells.{numbered, joined, parted};
ghost use Rattle.spaces.specs.Memories.{splits};
ghost use Rattle.spaces.specs.Splits.{split_frame};

use crate::memory::Memory;

pub type Split<L, H> = crate::split::Split<L, H, u16>;

impl<L: Memory, H: Memory> Split<L, H> {
    pub fn new(low: L, high: H, border: u16) -> Split<L, H>
        ensures meaning { splits L.cells H.cells result ≡ parted border (L.cells low) (H.cells high) }
        ensures frame { split_frame L.frame H.frame result ≡ numbered (border ∷ []) (joined (L.frame low) (H.frame high)) }
        ensures below { (result.low ≡ low) × (result.high ≡ high) }
    {
        Split { low, high, border }
    }
}

impl<L: Memory, H: Memory> Memory for Split<L, H> {
    ghost cells = { splits L.cells H.cells };

    ghost frame = { split_frame L.frame H.frame };

    fn read(&self, address: u16) -> u8 {
        if self.is_low(address) {
            self.low.read(address)
        } else {
            self.high.read(address)
        }
    }

    fn write(&mut self, address: u16, byte: u8) {
        if self.is_low(address) {
            self.low.write(address, byte);
        } else {
            self.high.write(address, byte);
        }
    }
}
