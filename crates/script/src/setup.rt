// The board that a script asks for: its board lines, and what stands where one is absent.
use crate::fault::{ScriptFault, Wrong};
use crate::line::{BoardLine, Chute, Contents, Labels, Lock, Ports, Ram};
use std::alloc::{AllocError, Global};

// First contents of the RAM, with the number of the line that gives them.
#[derive(Drop)]
struct Placed {
    line: usize,
    contents: Contents,
}

#[derive(Drop)]
pub(crate) struct Setup {
    boot: Option<Vec<u8>>,
    border: Option<u16>,
    ram: Option<Ram>,
    lock: Option<Lock>,
    labels: Option<Labels>,
    chute: Option<Chute>,
    ports: Option<Ports>,
    contents: Vec<Placed>,
    rests: [u8; 256],
}

impl Setup {
    pub(crate) fn new(heap: Global) -> Setup {
        Setup {
            boot: None,
            border: None,
            ram: None,
            lock: None,
            labels: None,
            chute: None,
            ports: None,
            contents: Vec::new(heap),
            rests: [0xff; 256],
        }
    }

    // Takes one more board line: a second of its kind is refused, but for `at` and `rest`.
    pub(crate) fn take(&mut self, number: usize, line: BoardLine) -> Result<(), Wrong> {
        match line {
            BoardLine::Boot(bytes) => once(&mut self.boot, bytes),
            BoardLine::Border(address) => once(&mut self.border, address),
            BoardLine::Ram(ram) => once(&mut self.ram, ram),
            BoardLine::Lock(lock) => once(&mut self.lock, lock),
            BoardLine::Labels(labels) => once(&mut self.labels, labels),
            BoardLine::Chute(chute) => once(&mut self.chute, chute),
            BoardLine::Ports(ports) => once(&mut self.ports, ports),
            BoardLine::At(contents) => {
                let line = number;
                self.contents.push(Placed { line, contents })?;
                Ok(())
            }
            BoardLine::Rest { port, byte } => {
                self.rests[usize::from(port)] = byte;
                Ok(())
            }
        }
    }

    // The boot table: its first bytes as given, the rest FFh.
    pub(crate) fn boot(&self) -> [u8; 256] {
        let mut table = [0xff; 256];
        if let Some(bytes) = &self.boot {
            for (place, byte) in table.iter_mut().zip(bytes) {
                *place = *byte;
            }
        }
        table
    }

    pub(crate) fn border(&self) -> u16 {
        self.border.unwrap_or(0)
    }

    pub(crate) fn ram(&self) -> Ram {
        self.ram.unwrap_or(Ram {
            first: 0,
            length: 65536,
        })
    }

    // With no lock line, one that locks none.
    pub(crate) fn lock(&self) -> Lock {
        self.lock.unwrap_or(Lock { first: 1, last: 0 })
    }

    // The label reader's port, and what waits there; with no such line, nothing at port 0.
    pub(crate) fn labels(&self) -> (u8, &[u8]) {
        match &self.labels {
            Some(labels) => (labels.port, labels.bytes.as_slice()),
            None => (0, &[]),
        }
    }

    // With no such line, nothing is kept at port 1.
    pub(crate) fn chute(&self) -> Chute {
        self.chute.unwrap_or(Chute { port: 1, depth: 0 })
    }

    pub(crate) fn ports(&self) -> Ports {
        self.ports.unwrap_or(Ports {
            first: 1,
            second: 2,
        })
    }

    pub(crate) fn rests(&self) -> [u8; 256] {
        self.rests
    }

    // The RAM's first bytes: 0, and what the `at` lines give, in their order.
    pub(crate) fn ram_bytes(&self, heap: Global) -> Result<Vec<u8>, ScriptFault> {
        let ram = self.ram();
        let mut bytes = vec![in heap; 0u8; ram.length as usize]?;
        for Placed { line, contents } in &self.contents {
            put(bytes.as_mut_slice(), ram.first, contents).ok_or(Wrong::OutsideRam.on_line(*line))?;
        }
        Ok(bytes)
    }
}

// Puts a value where none is yet.
fn once<T: Drop>(slot: &mut Option<T>, value: T) -> Result<(), Wrong> {
    if slot.is_some() {
        return Err(Wrong::Twice);
    }
    *slot = Some(value);
    Ok(())
}

// Puts the bytes into the RAM that begins at an address; `None` where one of them lies outside it or past FFFFh.
fn put(ram: &mut [u8], first: u16, contents: &Contents) -> Option<()> {
    let bytes = contents.bytes.as_slice();
    let start = usize::from(contents.address.checked_sub(first)?);
    let reach = ram.len().min(0x10000 - usize::from(first));
    let places = ram[..reach].get_mut(start..start + bytes.len())?;
    places.copy_from_slice(bytes);
    Some(())
}
