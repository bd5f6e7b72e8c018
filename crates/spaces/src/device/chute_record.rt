// A chute record: one port that keeps the last bytes written to it, in a ring over a lent slice. What the diverters saw.
ghost use Rattle.std.specs.Prelude.{◌≡◌, [], length};
ghost use Rattle.ring.specs.Kept.{kept, older, newer};
ghost use Rattle.spaces.specs.Devices.{sink, chute_record, chute_record_frame};
ghost use Rattle.spaces.specs.Ports.{only};
ghost use Rattle.std.specs.List.{slice_get};

use crate::device::DeviceSpace;
use ring::Ring;

#[derive(Drop)]
pub struct ChuteRecord<'a> {
    port: u8,
    ring: Ring<'a, u8>,
}

impl<'a> ChuteRecord<'a> {
    pub fn new(port: u8, bytes: &'a mut [u8]) -> ChuteRecord<'a>
        ensures meaning { chute_record result ≡ only port (sink (length bytes.old) []) }
        ensures port { result.port ≡ port }
        ensures slice { result.ring.slots.now ≡ bytes.old }
        ensures lent { result.ring.slots.ghost_name ≡ bytes.entry.ghost_name }
    {
        ChuteRecord {
            port,
            ring: Ring::new(bytes),
        }
    }

    // How many bytes it keeps.
    pub fn len(&self) -> usize
        ensures { result ≡ length (kept self.now.ring) }
    {
        self.ring.len()
    }

    // The bytes that it keeps, in two parts, each with its oldest first: those of before the ring's last turn, then those since.
    pub fn as_slices(&self) -> (&[u8], &[u8])
        ensures older { result.0.now ≡ older self.now.ring }
        ensures newer { result.1.now ≡ newer self.now.ring }
    {
        self.ring.as_slices()
    }

    // The i-th oldest byte that it keeps, from 0, or nothing.
    pub fn get(&self, i: usize) -> Option<u8>
        ensures { result ≡ slice_get (kept self.now.ring) i }
    {
        self.ring.get(i)
    }
}

impl<'a> DeviceSpace for ChuteRecord<'a> {
    ghost ports = { chute_record };

    ghost frame = { chute_record_frame };

    fn read(&mut self, _port: u8) -> u8 {
        0xff
    }

    fn write(&mut self, port: u8, byte: u8) {
        if port == self.port {
            self.ring.push(byte);
        }
    }
}
