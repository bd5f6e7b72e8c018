// The numbers that refusals and timings stand for.
ghost use Rattle.std.specs.Prelude.{◌≡◌};
ghost use Rattle.control.specs.Numbers.{t_cycles, fault_number};

use crate::fault::DecodeFault;
use crate::fields::Timing;

impl DecodeFault {
    // Named, and no `From`: `u8::from(fault)` would not say that it is the refusal's number.
    pub fn number(self) -> u8
        ensures { result ≡ fault_number self }
    {
        match self {
            DecodeFault::NoGroup => 2,
            DecodeFault::BadMode
            | DecodeFault::BadTiming
            | DecodeFault::BadInterruptControl
            | DecodeFault::BadReadMask => 3,
        }
    }
}

impl Timing {
    // Named, and no `From`: a timing stands for two numbers, its bits and its T-cycles.
    pub fn t_cycles(self) -> u8
        ensures { result ≡ t_cycles self }
    {
        match self {
            Timing::Two => 2,
            Timing::Three => 3,
            Timing::Four => 4,
        }
    }
}
