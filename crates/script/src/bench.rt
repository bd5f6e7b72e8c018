// A board on the bench: the layered memory and device space of a script.
use crate::command::{Access, Command, Look};
use spaces::device::DeviceSpace;
use spaces::device::chute_record::ChuteRecord;
use spaces::device::label_reader::LabelReader;
use spaces::device::latch_bank::LatchBank;
use spaces::device::split_by_port::SplitByPort;
use spaces::memory::Memory;
use spaces::memory::boot_table::BootTable;
use spaces::memory::lent_ram::LentRam;
use spaces::memory::lock::Lock;
use spaces::memory::split::Split;
use std::alloc::AllocError;

// below the border a boot table, from it on lent RAM; over both a lock
type BenchMemory<'a> = Lock<Split<BootTable, LentRam<'a>>>;
// below the first port border the label reader; from there, below the second, the chute record; then the latch bank
type BenchDevices<'a> = SplitByPort<LabelReader<'a>, SplitByPort<ChuteRecord<'a>, LatchBank>>;

#[derive(Drop)]
pub(crate) struct Bench<'a> {
    memory: BenchMemory<'a>,
    devices: BenchDevices<'a>,
}

impl<'a> Bench<'a> {
    pub(crate) fn new(memory: BenchMemory<'a>, devices: BenchDevices<'a>) -> Bench<'a> {
        Bench { memory, devices }
    }

    // Does the command and prints its line.
    pub(crate) fn play(&mut self, command: Command, out: &mut String) -> Result<(), AllocError> {
        match command {
            Command::Access(access) => self.access(access, out),
            Command::Look(look) => self.look(look, out),
        }
    }

    fn access(&mut self, access: Access, out: &mut String) -> Result<(), AllocError> {
        match access {
            Access::Poke { address, byte } => {
                self.memory.write(address, byte);
                writeln!(out, "(poke {address:04X} {byte:02X})")
            }
            Access::In { port } => {
                let byte = self.devices.read(port);
                writeln!(out, "(in {port:02X} {byte:02X})")
            }
            Access::Out { port, byte } => {
                self.devices.write(port, byte);
                writeln!(out, "(out {port:02X} {byte:02X})")
            }
        }
    }

    fn look(&self, look: Look, out: &mut String) -> Result<(), AllocError> {
        match look {
            Look::Memory { address, count } => self.look_at_memory(address, count, out),
            Look::Chute => self.look_at_chute(out),
            Look::Latch { port } => self.look_at_latch(port, out),
            Look::Waiting => self.look_at_labels(out),
        }
    }

    fn look_at_memory(&self, address: u16, count: u32, out: &mut String) -> Result<(), AllocError> {
        write!(out, "(memory {address:04X}")?;
        // all addresses from this one on: 0000h comes after FFFFh
        for shown in (address..=u16::MAX).chain(0..address).take(count as usize) {
            let byte = self.memory.read(shown);
            write!(out, " {byte:02X}")?;
        }
        writeln!(out, ")")
    }

    fn look_at_chute(&self, out: &mut String) -> Result<(), AllocError> {
        let (older, newer) = self.devices.high.low.as_slices();
        write!(out, "(chute")?;
        write_bytes(older, out)?;
        write_bytes(newer, out)?;
        writeln!(out, ")")
    }

    fn look_at_latch(&self, port: u8, out: &mut String) -> Result<(), AllocError> {
        match self.devices.high.high.latched(port) {
            Some(byte) => writeln!(out, "(latch {port:02X} {byte:02X})"),
            None => writeln!(out, "(latch {port:02X})"),
        }
    }

    fn look_at_labels(&self, out: &mut String) -> Result<(), AllocError> {
        write!(out, "(waiting")?;
        write_bytes(self.devices.low.waiting(), out)?;
        writeln!(out, ")")
    }
}

// The bytes of a slice, a space in front of each. A memory has no slice of its bytes to be written so.
fn write_bytes(bytes: &[u8], out: &mut String) -> Result<(), AllocError> {
    for byte in bytes {
        write!(out, " {byte:02X}")?;
    }
    Ok(())
}
