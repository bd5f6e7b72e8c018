// A memory has, at each of 65,536 addresses, a byte and a fixed mark: writable or not. No call refuses.
ghost use Rattle.std.specs.Prelude.{◌≡◌};
ghost use Rattle.spaces.specs.Cells.{Cells, Frame, put};

pub mod boot_table;
pub mod lent_ram;
pub mod lock;
pub mod split;

pub trait Memory {
    // what it shows at each address; its meaning is that up to the last one
    ghost cells: { Self → Cells };

    // what no call alters: the slices on loan and where they lie, so that a lender knows its slice afterwards
    ghost frame: { Self → Frame };

    // Answers the byte, and alters nothing.
    fn read(&self, address: u16) -> u8
        ensures { result ≡ (cells self.now).byte address };

    // Puts the byte at a writable address, and has no effect at another.
    fn write(&mut self, address: u16, byte: u8)
        ensures after { cells self.new ≡ put (cells self.old) address byte }
        ensures frame { frame self.new ≡ frame self.old };
}
