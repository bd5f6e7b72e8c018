// Whether a byte matches.
ghost use Rattle.std.specs.Prelude.{◌≡◌};
ghost use Rattle.registers.specs.Bytes.{equal_where_0, matches};

use registers::program::Program;

// Whether the byte equals the match byte wherever the mask has 0.
pub(crate) fn equal_where_0(mask: u8, pattern: u8, byte: u8) -> bool
    ensures { result ≡ equal_where_0 mask pattern byte }
{
    (byte ^ pattern) & !mask == 0
}

// Whether a read finds a match in the byte to compare, if there is one.
pub(crate) fn matches(program: &Program, compare: Option<u8>) -> bool
    ensures { result ≡ matches program.now compare }
{
    let search = program.search;
    compare.is_some_and(|byte| equal_where_0(search.mask, search.pattern, byte))
}
