// Plays a script on a board of its own, and prints a line for each access and look.
use crate::bench::Bench;
use crate::fault::PlayFault;
use crate::script::Script;
use spaces::device::DeviceSpace;
use spaces::device::chute_record::ChuteRecord;
use spaces::device::label_reader::LabelReader;
use spaces::device::latch_bank::LatchBank;
use spaces::device::split_by_port::SplitByPort;
use spaces::memory::Memory;
use spaces::memory::boot_table::BootTable;
use spaces::memory::lent_ram::LentRam;
use spaces::memory::lock::Lock;
use spaces::memory::split::Split;
use std::alloc::Global;

// Reads a script whole, and then plays it: what it prints, or what is wrong with it.
pub fn play(heap: Global, text: &[u8]) -> Result<String, PlayFault> {
    let script = Script::read(heap, text)?;
    let mut ram = script.setup.ram_bytes(heap)?;
    let chute = script.setup.chute();
    let mut chute_bytes = vec![in heap; 0u8; chute.depth as usize]?;
    let border = script.setup.border();
    let lock = script.setup.lock();
    let ports = script.setup.ports();
    let low = BootTable::new(script.setup.boot());
    let high = LentRam::new(script.setup.ram().first, ram.as_mut_slice());
    let memory = Lock::new(Split::new(low, high, border), lock.first, lock.last);
    let (label_port, labels) = script.setup.labels();
    let reader = LabelReader::new(label_port, labels);
    let record = ChuteRecord::new(chute.port, chute_bytes.as_mut_slice());
    let bank = LatchBank::new(script.setup.rests());
    let rest = SplitByPort::new(record, bank, ports.second);
    let devices = SplitByPort::new(reader, rest, ports.first);
    let mut bench = Bench::new(memory, devices);
    let mut out = String::new(heap);
    for command in &script.commands {
        bench.play(*command, &mut out)?;
    }
    Ok(out)
}
