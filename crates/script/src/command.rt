// What a script does with its board: an access as a CPU makes it, or a look, which alters nothing.

#[derive(Clone, Copy)]
pub(crate) enum Access {
    Poke { address: u16, byte: u8 },
    In { port: u8 },
    Out { port: u8, byte: u8 },
}

#[derive(Clone, Copy)]
pub(crate) enum Look {
    // so many addresses from one on, wrapping after the last
    Memory { address: u16, count: u32 },
    Chute,
    Latch { port: u8 },
    Waiting,
}

#[derive(Clone, Copy)]
pub(crate) enum Command {
    Access(Access),
    Look(Look),
}
