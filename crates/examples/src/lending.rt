// A slice lent through layers, and through code over any memory, is known again afterwards.
ghost use Rattle.std.specs.Prelude.{◌≡◌, length, if◌then◌else◌, nat_lt, slice_index};
ghost use Rattle.spaces.specs.Cells.{put};

use spaces::memory::Memory;
use spaces::memory::boot_table::BootTable;
use spaces::memory::lent_ram::LentRam;
use spaces::memory::lock::Lock;
use spaces::memory::split::Split;

// Two writes to any memory.
pub(crate) fn write_two<M: Memory>(memory: &mut M, address: u16, byte: u8)
    ensures after { M.cells memory.new ≡ put (put (M.cells memory.old) address byte) 0 byte }
    ensures frame { M.frame memory.new ≡ M.frame memory.old }
{
    memory.write(address, byte);
    memory.write(0, byte);
}

// What the layers show in the RAM is what the lender finds in its slice.
pub(crate) fn lend_and_take_back<'a>(
    bytes: &'a mut [u8],
    address: u16,
    byte: u8,
) -> (u8, &'a mut [u8])
    ensures { result.0 ≡ (if nat_lt 1 (length result.1.now) then slice_index result.1.now 1 else 255) }
{
    let ram = LentRam::new(0x8000, bytes);
    let mut memory = Lock::new(Split::new(BootTable::new([0; 256]), ram, 0x8000), 1, 0);
    write_two(&mut memory, address, byte);
    let shown = memory.read(0x8001);
    let (_, ram) = memory.into_memory().into_parts();
    (shown, ram.into_bytes())
}
