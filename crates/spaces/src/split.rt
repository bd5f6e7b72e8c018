// A split between any two parts: what is below the border is the low part's, the rest the high part's.
// Over two memories the border is an address, over two device spaces a port. Each of the two kinds has a `new`
// of its own, which promises what the split means there.
ghost use Rattle.std.specs.Prelude.{◌≡◌};
ghost use Rattle.std.specs.Ordering.{partial_lt};

#[derive(Drop)]
pub struct Split<L, H, A> {
    pub low: L,
    pub high: H,
    pub(crate) border: A,
}

impl<L, H, A: PartialOrd + Copy> Split<L, H, A> {
    // The two parts, back.
    pub fn into_parts(self) -> (L, H)
        ensures { (result.0 ≡ self.low) × (result.1 ≡ self.high) }
    {
        (self.low, self.high)
    }

    // Whether an address, or a port, is on the low side: the border itself is not.
    pub(crate) fn is_low(&self, address: A) -> bool
        ensures { result ≡ partial_lt A.partial_cmp address self.now.border }
    {
        address < self.border
    }
}
