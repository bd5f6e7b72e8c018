// A count of the first bytes, each of them decoded.
ghost use Rattle.std.specs.Prelude.{◌≡◌, ◌+◌};
ghost use Rattle.control.specs.Firsts.{decoded_first};
ghost use Rattle.control.specs.Counts.{census_below, tallied, Few};

use crate::decode::decode_first;
use crate::fault::DecodeFault;
use crate::tally::Census;

// The counts of the first bytes below this one, with this one's answer.
fn tally(census: Census, byte: u8) -> Census
    requires { Few census byte }
    ensures counts { result ≡ tallied census (decoded_first byte) }
    ensures bound { Few result (byte + 1) }
{
    match decode_first(byte) {
        Ok(_) => Census {
            grouped: census.grouped + 1,
            ..census
        },
        Err(DecodeFault::NoGroup) => Census {
            ungrouped: census.ungrouped + 1,
            ..census
        },
        Err(DecodeFault::BadMode) => Census {
            grouped: census.grouped + 1,
            bad_mode: census.bad_mode + 1,
            ..census
        },
        Err(_) => census,
    }
}

// The 256 first bytes.
#[tactic(auto, using(crate::proofs::Counting::one_more, crate::proofs::Counting::whole))]
pub fn census() -> Census
    ensures counts { result ≡ census_below 256 }
    ensures numbers { result ≡ record { grouped = 215; bad_mode = 8; ungrouped = 41 } }
{
    let mut census = Census {
        grouped: 0,
        bad_mode: 0,
        ungrouped: 0,
    };
    // A loop: its invariant bounds the counts, so that no `+ 1` overflows. By `fold`, as tried, three goals stayed open.
    for byte in 0..=u8::MAX {
        census = tally(census, byte);
    }
    census
}
