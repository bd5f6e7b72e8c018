// A split of the ports between any two device spaces: those below the border are the one's, the rest the other's.
ghost use Rattle.std.specs.Prelude.{◌≡◌, [], ◌∷◌};
ghost use Rattle.spaces.specs.Cells.{numbered, joined};
ghost use Rattle.spaces.specs.Devices.{splits_by_port};
ghost use Rattle.spaces.specs.Ports.{shared};
ghost use Rattle.spaces.specs.Splits.{split_frame};

use crate::device::DeviceSpace;
use crate::split::Split;

pub type SplitByPort<L, H> = Split<L, H, u8>;

impl<L: DeviceSpace, H: DeviceSpace> SplitByPort<L, H> {
    pub fn new(low: L, high: H, border: u8) -> SplitByPort<L, H>
        ensures meaning { splits_by_port L.ports H.ports result ≡ shared border (L.ports low) (H.ports high) }
        ensures frame { split_frame L.frame H.frame result ≡ numbered (border ∷ []) (joined (L.frame low) (H.frame high)) }
        ensures below { (result.low ≡ low) × (result.high ≡ high) }
    {
        SplitByPort { low, high, border }
    }
}

impl<L: DeviceSpace, H: DeviceSpace> DeviceSpace for SplitByPort<L, H> {
    ghost ports = { splits_by_port L.ports H.ports };

    ghost frame = { split_frame L.frame H.frame };

    fn read(&mut self, port: u8) -> u8 {
        if self.is_low(port) {
            self.low.read(port)
        } else {
            self.high.read(port)
        }
    }

    fn write(&mut self, port: u8, byte: u8) {
        if self.is_low(port) {
            self.low.write(port, byte);
        } else {
            self.high.write(port, byte);
        }
    }
}
