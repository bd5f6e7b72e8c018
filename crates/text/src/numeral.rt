// Numbers as they are written in scripts and tables.
ghost use Rattle.std.specs.Prelude.{◌≡◌};
ghost use Rattle.text.specs.Numerals.{radix_of, digit_of, value_after, at_most, numeral_of, hexadecimal_of};

#[derive(Clone, Copy)]
pub enum Base {
    Decimal,
    Hexadecimal,
}

impl Base {
    // Named, and no `From`: `u8::from(base)` would not say that it is the number of digits.
    pub fn radix(self) -> u8
        ensures { result ≡ radix_of self }
    {
        match self {
            Base::Decimal => 10,
            Base::Hexadecimal => 16,
        }
    }

    // The digit that a character is, if any.
    pub fn digit(self, character: u8) -> Option<u8>
        ensures { result ≡ digit_of self character }
    {
        let value = char::from(character).to_digit(u32::from(self.radix()))?;
        Some(value as u8)
    }
}

// The value of a word, where each of its characters is a digit and the value is at most `most`.
fn value(base: Base, word: &[u8], most: u32) -> Option<u32>
    ensures { result ≡ at_most most (value_after base 0 word.now) }
{
    let mut value = 0u64;
    for character in word {
        let digit = base.digit(*character)?;
        value = value * u64::from(base.radix()) + u64::from(digit);
        if value > u64::from(most) {
            return None;
        }
    }
    Some(value as u32)
}

// The value of a word of one digit or more, where it is at most `most`.
pub fn numeral(base: Base, word: &[u8], most: u32) -> Option<u32>
    ensures { result ≡ numeral_of base most word.now }
{
    if word.is_empty() {
        return None;
    }
    value(base, word, most)
}

// A hexadecimal word of at most so many digits, where its value is at most `most`.
fn hexadecimal(digits: usize, most: u32, word: &[u8]) -> Option<u32>
    ensures { result ≡ hexadecimal_of digits most word.now }
{
    if word.len() > digits {
        return None;
    }
    numeral(Base::Hexadecimal, word, most)
}

// A byte or a port: one or two hexadecimal digits.
pub fn byte(word: &[u8]) -> Option<u8>
    ensures { result ≡ hexadecimal_of 2 0xff word.now }
{
    Some(hexadecimal(2, 0xff, word)? as u8)
}

// An address: one to four hexadecimal digits.
pub fn address(word: &[u8]) -> Option<u16>
    ensures { result ≡ hexadecimal_of 4 0xffff word.now }
{
    Some(hexadecimal(4, 0xffff, word)? as u16)
}
