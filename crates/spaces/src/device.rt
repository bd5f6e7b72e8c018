// A device space has, at each of 256 ports, a waiting list, a rest byte, a kept list and a depth. No call refuses.
ghost use Rattle.std.specs.Prelude.{◌≡◌, ℕ};
ghost use Rattle.spaces.specs.Cells.{Frame};
ghost use Rattle.spaces.specs.Ports.{Port, answer, taken, added, with_port};

pub mod chute_record;
pub mod label_reader;
pub mod latch_bank;
pub mod split_by_port;

pub trait DeviceSpace {
    // what stands at each port; its meaning is that up to the last one
    ghost ports: { Self → ℕ → Port };

    // what no call alters: the slices on loan, and the ports and borders
    ghost frame: { Self → Frame };

    // Takes the first byte that waits at the port; with none waiting answers its rest byte, and alters nothing.
    fn read(&mut self, port: u8) -> u8
        ensures value { result ≡ answer (ports self.old port) }
        ensures after { ports self.new ≡ with_port (ports self.old) port (taken (ports self.old port)) }
        ensures frame { frame self.new ≡ frame self.old };

    // Adds the byte to the end of the port's kept list, and keeps the last depth bytes.
    fn write(&mut self, port: u8, byte: u8)
        ensures after { ports self.new ≡ with_port (ports self.old) port (added (ports self.old port) byte) }
        ensures frame { frame self.new ≡ frame self.old };
}
