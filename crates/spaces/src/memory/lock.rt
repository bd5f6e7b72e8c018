// A lock over any memory: the addresses from first to last, both counted, are not writable.
ghost use Rattle.std.specs.Prelude.{◌≡◌, [], ◌∷◌};
ghost use Rattle.spaces.specs.Cells.{numbered, locked};
ghost use Rattle.spaces.specs.Memories.{locks, lock_frame};

use crate::memory::Memory;

#[derive(Drop)]
pub struct Lock<M> {
    memory: M,
    first: u16,
    last: u16,
}

impl<M: Memory> Lock<M> {
    // With the first address above the last, none is locked.
    pub fn new(memory: M, first: u16, last: u16) -> Lock<M>
        ensures meaning { locks M.cells result ≡ locked first last (M.cells memory) }
        ensures frame { lock_frame M.frame result ≡ numbered (first ∷ last ∷ []) (M.frame memory) }
        ensures below { result.memory ≡ memory }
    {
        Lock {
            memory,
            first,
            last,
        }
    }

    // The memory below, back.
    pub fn into_memory(self) -> M
        ensures { result ≡ self.memory }
    {
        self.memory
    }
}

impl<M: Memory> Memory for Lock<M> {
    ghost cells = { locks M.cells };

    ghost frame = { lock_frame M.frame };

    fn read(&self, address: u16) -> u8 {
        self.memory.read(address)
    }

    fn write(&mut self, address: u16, byte: u8) {
        if !(self.first..=self.last).contains(&address) {
            self.memory.write(address, byte);
        }
    }
}
