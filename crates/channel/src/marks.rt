// What a mark says.
ghost use Rattle.std.specs.Prelude.{◌≡◌};
ghost use Rattle.registers.specs.Numbers.{finishes, ends_block, final};

use registers::answer::Mark;

// Whether a byte is finished.
pub(crate) fn finishes(mark: Mark) -> bool
    ensures { result ≡ finishes mark }
{
    mark != Mark::Unfinished
}

// Whether the block ended.
pub(crate) fn ends_block(mark: Mark) -> bool
    ensures { result ≡ ends_block mark }
{
    matches!(mark, Mark::Ended | Mark::Both)
}

// Whether the channel ended or stopped.
pub(crate) fn is_final(mark: Mark) -> bool
    ensures { result ≡ final mark }
{
    matches!(mark, Mark::Ended | Mark::Stopped | Mark::Both)
}
