// The lines of a script: board lines, and what is done with the board. Numbers up to 65,536
// are u32, and used as places by `as usize`, since no `From` leads there.
use crate::command::Command;

#[derive(Clone, Copy)]
pub(crate) struct Ram {
    pub first: u16,
    pub length: u32,
}

#[derive(Clone, Copy)]
pub(crate) struct Lock {
    pub first: u16,
    pub last: u16,
}

#[derive(Clone, Copy)]
pub(crate) struct Chute {
    pub port: u8,
    pub depth: u32,
}

#[derive(Clone, Copy)]
pub(crate) struct Ports {
    pub first: u8,
    pub second: u8,
}

// First contents of the RAM.
#[derive(Drop)]
pub(crate) struct Contents {
    pub address: u16,
    pub bytes: Vec<u8>,
}

#[derive(Drop)]
pub(crate) struct Labels {
    pub port: u8,
    pub bytes: Vec<u8>,
}

#[derive(Drop)]
pub(crate) enum BoardLine {
    Boot(Vec<u8>),
    Border(u16),
    Ram(Ram),
    At(Contents),
    Lock(Lock),
    Labels(Labels),
    Chute(Chute),
    Rest { port: u8, byte: u8 },
    Ports(Ports),
}

#[derive(Drop)]
pub(crate) enum Line {
    Board(BoardLine),
    Do(Command),
}
