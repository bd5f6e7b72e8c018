// The seven read registers, the status byte and the read-out.
ghost use Rattle.std.specs.Prelude.{◌≡◌, ◌≤◌, ◌==◌, if◌then◌else◌, Ok, Err};
ghost use Rattle.registers.specs.declared.fault.ChannelFault.TheVariants.{RegisterUnread};
ghost use Rattle.registers.specs.ReadOuts.{bit, status_byte, shown, lowest, read_next, unmarked, nothing_unread};

use crate::cycle::is_active;
use control::fields::Level;
use registers::fault::ChannelFault;
use registers::progress::Progress;
use registers::read_out::ReadOut;
use registers::row::Registers;

// A bit of the status byte or of a vector.
pub(crate) fn bit(set: bool, value: u8) -> u8
    ensures { result ≡ bit set value }
{
    if set { value } else { 0 }
}

// RR0, at this level of Ready.
pub(crate) fn status_byte(level: Level, forced: bool, registers: &Registers) -> u8
    ensures { result ≡ status_byte level forced registers.now }
{
    let latches = registers.latches;
    let active = is_active(&registers.manner, forced, level);
    bit(latches.moved, 0x01)
        + bit(!active, 0x02)
        + bit(!(latches.causes.matched || latches.causes.ended), 0x08)
        + bit(!latches.matched, 0x10)
        + bit(!latches.ended, 0x20)
}

// RR0 to RR6, at this level of Ready.
pub fn read_registers(level: Level, forced: bool, registers: &Registers) -> [u8; 7]
    requires { registers.now.progress.count ≤ 65536 }
    ensures { result ≡ shown level forced registers.now }
{
    let Progress { a, b, count, .. } = registers.progress;
    let [count_low, count_high] = (count.saturating_sub(1) as u16).to_le_bytes();
    let [a_low, a_high] = a.to_le_bytes();
    let [b_low, b_high] = b.to_le_bytes();
    let status = status_byte(level, forced, registers);
    [status, count_low, count_high, a_low, a_high, b_low, b_high]
}

// A read-out is refused with a register unread; else these registers are marked unread.
pub fn start_read_out(marks: u8, readout: &mut ReadOut) -> Result<(), ChannelFault>
    ensures answer { result ≡ (if readout.old.unread == 0 then Ok tt else Err RegisterUnread) }
    ensures readout { readout.new ≡ (if readout.old.unread == 0 then (record { mask = readout.old.mask; unread = marks }) else readout.old) }
{
    if readout.unread != 0 {
        return Err(ChannelFault::RegisterUnread);
    }
    readout.unread = marks;
    Ok(())
}

// The lowest of the seven registers that is unread.
pub(crate) fn lowest(unread: u8) -> usize
    ensures { result ≡ lowest unread }
{
    // `as`: no `From` leads from u32 to usize
    unread.trailing_zeros().min(6) as usize
}

// Unmarks the lowest unread register.
pub(crate) fn unmark(readout: &mut ReadOut)
    ensures { readout.new ≡ unmarked (nothing_unread readout.old) readout.old }
{
    if readout.unread != 0 {
        readout.unread ^= 1 << lowest(readout.unread);
    }
}

// The lowest unread one of these registers, which is read by it.
pub fn read_next(registers: &[u8; 7], readout: &mut ReadOut) -> Result<u8, ChannelFault>
    ensures answer { result ≡ read_next (nothing_unread readout.old) registers.now readout.old }
    ensures readout { readout.new ≡ unmarked (nothing_unread readout.old) readout.old }
{
    if readout.unread == 0 {
        return Err(ChannelFault::NothingUnread);
    }
    let byte = registers[lowest(readout.unread)];
    unmark(readout);
    Ok(byte)
}
