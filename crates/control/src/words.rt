// The words that a report prints. Taking a word can't fail, as displaying it can, so each enum has both. The functions
// have nothing in common but their form: each is a list of words. Nor can one impl of std's Display be for all the enums.
ghost use Rattle.std.specs.Prelude.{◌≡◌, Some};
ghost use Rattle.control.specs.Words.{class_word, port_word, space_word, rule_word, mode_word, level_word, group_word, command_word, follower_word};

use crate::fields::{AddressRule, Class, Level, Mode, PortName, Space};
use crate::first::{Command, Group};
use crate::follower::Follower;
use std::fmt;

impl Class {
    pub fn word(self) -> &'static str
        ensures { result.now ≡ class_word self }
    {
        match self {
            Class::Transfer => "transfer",
            Class::Search => "search",
            Class::Both => "both",
        }
    }
}

impl fmt::Display for Class {
    ghost output = { λ x. Some (class_word x) };

    fn fmt<W: fmt::Write>(&self, f: &mut fmt::Formatter<W>) -> fmt::Result {
        f.write_str(Class::word(*self))
    }
}

impl PortName {
    pub fn word(self) -> &'static str
        ensures { result.now ≡ port_word self }
    {
        match self {
            PortName::A => "a",
            PortName::B => "b",
        }
    }
}

impl fmt::Display for PortName {
    ghost output = { λ x. Some (port_word x) };

    fn fmt<W: fmt::Write>(&self, f: &mut fmt::Formatter<W>) -> fmt::Result {
        f.write_str(PortName::word(*self))
    }
}

impl Space {
    pub fn word(self) -> &'static str
        ensures { result.now ≡ space_word self }
    {
        match self {
            Space::Memory => "memory",
            Space::Io => "io",
        }
    }
}

impl fmt::Display for Space {
    ghost output = { λ x. Some (space_word x) };

    fn fmt<W: fmt::Write>(&self, f: &mut fmt::Formatter<W>) -> fmt::Result {
        f.write_str(Space::word(*self))
    }
}

impl AddressRule {
    pub fn word(self) -> &'static str
        ensures { result.now ≡ rule_word self }
    {
        match self {
            AddressRule::Decrement => "decrement",
            AddressRule::Increment => "increment",
            AddressRule::Fixed => "fixed",
        }
    }
}

impl fmt::Display for AddressRule {
    ghost output = { λ x. Some (rule_word x) };

    fn fmt<W: fmt::Write>(&self, f: &mut fmt::Formatter<W>) -> fmt::Result {
        f.write_str(AddressRule::word(*self))
    }
}

impl Mode {
    pub fn word(self) -> &'static str
        ensures { result.now ≡ mode_word self }
    {
        match self {
            Mode::Byte => "byte",
            Mode::Continuous => "continuous",
            Mode::Burst => "burst",
        }
    }
}

impl fmt::Display for Mode {
    ghost output = { λ x. Some (mode_word x) };

    fn fmt<W: fmt::Write>(&self, f: &mut fmt::Formatter<W>) -> fmt::Result {
        f.write_str(Mode::word(*self))
    }
}

impl Level {
    pub fn word(self) -> &'static str
        ensures { result.now ≡ level_word self }
    {
        match self {
            Level::Low => "low",
            Level::High => "high",
        }
    }
}

impl fmt::Display for Level {
    ghost output = { λ x. Some (level_word x) };

    fn fmt<W: fmt::Write>(&self, f: &mut fmt::Formatter<W>) -> fmt::Result {
        f.write_str(Level::word(*self))
    }
}

impl Group {
    pub fn word(self) -> &'static str
        ensures { result.now ≡ group_word self }
    {
        match self {
            Group::Wr0 => "WR0",
            Group::Wr1 => "WR1",
            Group::Wr2 => "WR2",
            Group::Wr3 => "WR3",
            Group::Wr4 => "WR4",
            Group::Wr5 => "WR5",
            Group::Wr6 => "WR6",
        }
    }
}

impl fmt::Display for Group {
    ghost output = { λ x. Some (group_word x) };

    fn fmt<W: fmt::Write>(&self, f: &mut fmt::Formatter<W>) -> fmt::Result {
        f.write_str(Group::word(*self))
    }
}

impl Command {
    pub fn word(self) -> &'static str
        ensures { result.now ≡ command_word self }
    {
        match self {
            Command::PowerOn => "power-on",
            Command::DefaultTimingA => "default-timing-a",
            Command::DefaultTimingB => "default-timing-b",
            Command::Load => "load",
            Command::Continue => "continue",
            Command::InterruptsOff => "interrupts-off",
            Command::InterruptsOn => "interrupts-on",
            Command::InterruptsReset => "interrupts-reset",
            Command::Enable => "enable",
            Command::Disable => "disable",
            Command::ReadMask => "read-mask",
            Command::StartReadOut => "start-read-out",
            Command::ReadStatus => "read-status",
            Command::ClearStatus => "clear-status",
            Command::ForceReady => "force-ready",
        }
    }
}

impl fmt::Display for Command {
    ghost output = { λ x. Some (command_word x) };

    fn fmt<W: fmt::Write>(&self, f: &mut fmt::Formatter<W>) -> fmt::Result {
        f.write_str(Command::word(*self))
    }
}

impl Follower {
    pub fn word(self) -> &'static str
        ensures { result.now ≡ follower_word self }
    {
        match self {
            Follower::ALow => "a-low",
            Follower::AHigh => "a-high",
            Follower::LengthLow => "length-low",
            Follower::LengthHigh => "length-high",
            Follower::ATiming => "a-timing",
            Follower::BTiming => "b-timing",
            Follower::Mask => "mask",
            Follower::Match => "match",
            Follower::BLow => "b-low",
            Follower::BHigh => "b-high",
            Follower::Interrupt => "interrupt",
            Follower::Pulse => "pulse",
            Follower::Vector => "vector",
            Follower::ReadMask => "read-mask",
        }
    }
}

impl fmt::Display for Follower {
    ghost output = { λ x. Some (follower_word x) };

    fn fmt<W: fmt::Write>(&self, f: &mut fmt::Formatter<W>) -> fmt::Result {
        f.write_str(Follower::word(*self))
    }
}
