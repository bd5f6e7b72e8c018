// A space is what it shows at its addresses or ports: nothing else can tell two makes apart.
// Functions with nothing to do, whose contracts say so of any two memories and any two device spaces.
// Two, and not one over a trait of both kinds: that trait would be used here alone.
ghost use Rattle.std.specs.Prelude.{◌≡◌};
ghost use Rattle.spaces.specs.Cells.{SameCells, meaning};
ghost use Rattle.spaces.specs.Ports.{SamePorts, meaning as ports_meaning};

use crate::device::DeviceSpace;
use crate::memory::Memory;

// The same byte and mark at each of the 65,536 addresses: the same meaning.
pub fn memories_alike<M: Memory, N: Memory>(one: &M, other: &N)
    ensures { SameCells (M.cells one.now) (N.cells other.now) → meaning (M.cells one.now) ≡ meaning (N.cells other.now) }
{}

// The same lists, rest byte and depth at each of the 256 ports: the same meaning.
pub fn devices_alike<D: DeviceSpace, E: DeviceSpace>(one: &D, other: &E)
    ensures { SamePorts (D.ports one.now) (E.ports other.now) → ports_meaning (D.ports one.now) ≡ ports_meaning (E.ports other.now) }
{}
