// A label reader: the bytes of a slice wait at one port. A slice held for reading, with a cursor.
ghost use Rattle.std.specs.Prelude.{◌≡◌};
ghost use Rattle.spaces.specs.Devices.{source, label_reader, label_reader_frame};
ghost use Rattle.spaces.specs.Ports.{only};

use crate::device::DeviceSpace;

#[derive(Drop)]
pub struct LabelReader<'a> {
    port: u8,
    labels: &'a [u8],
    // how many bytes have been read. By a rule of the project the waiting list is the unread part of a lent slice, which is
    // held for reading, with a cursor
    cursor: usize,
}

impl<'a> LabelReader<'a> {
    pub fn new(port: u8, labels: &'a [u8]) -> LabelReader<'a>
        ensures meaning { label_reader result ≡ only port (source labels.now) }
        ensures port { result.port ≡ port }
    {
        LabelReader {
            port,
            labels,
            cursor: 0,
        }
    }

    // The bytes that still wait.
    pub fn waiting(&self) -> &[u8]
        ensures { label_reader self.now ≡ only self.now.port (source result.now) }
    {
        self.labels.get(self.cursor..).unwrap_or_default()
    }
}

impl<'a> DeviceSpace for LabelReader<'a> {
    ghost ports = { label_reader };

    ghost frame = { label_reader_frame };

    fn read(&mut self, port: u8) -> u8 {
        if port != self.port {
            return 0xff;
        }
        match self.labels.get(self.cursor).copied() {
            Some(byte) => {
                self.cursor += 1;
                byte
            }
            None => 0xff,
        }
    }

    fn write(&mut self, _port: u8, _byte: u8) {}
}
