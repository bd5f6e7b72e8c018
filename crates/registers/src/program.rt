// What is programmed and decides which bytes go where. No cycle changes it.
use control::fields::{AddressRule, Class, InterruptControl, PortName, Space};

#[derive(Clone, Copy, Debug, PartialEq, Eq)]
pub struct Port {
    pub space: Space,
    pub rule: AddressRule,
    pub start: u16,
}

#[derive(Clone, Copy, Debug, PartialEq, Eq)]
pub struct Search {
    // a bit that is 0 is compared
    pub mask: u8,
    // the match byte
    pub pattern: u8,
    // stop on match
    pub stop: bool,
}

#[derive(Clone, Copy, Debug, PartialEq, Eq)]
pub struct Signals {
    pub control: InterruptControl,
    // the pulse byte
    pub pulse: u8,
    pub vector: u8,
}

#[derive(Clone, Copy, Debug, PartialEq, Eq)]
pub struct Program {
    pub class: Class,
    pub source: PortName,
    // two fields here and in what else each port has, and no pair: the rules name what is a port's by itself
    pub a: Port,
    pub b: Port,
    // N: a block has one byte more
    pub length: u16,
    pub search: Search,
    pub signals: Signals,
    // auto restart
    pub restart: bool,
}
