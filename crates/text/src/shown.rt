// Bytes of an input as an error line shows them.
ghost use Rattle.std.specs.Prelude.{Some};
ghost use Rattle.text.specs.Shown.{shown_byte, shown};

use std::fmt;

#[derive(Clone, Copy)]
pub struct Printable<'a>(pub &'a [u8]);

impl<'a> fmt::Display for Printable<'a> {
    ghost output = { λ x. Some (shown x.0.now) };

    fn fmt<W: fmt::Write>(&self, f: &mut fmt::Formatter<W>) -> fmt::Result {
        for byte in self.0 {
            write!(f, "{}", PrintableByte(*byte))?;
        }
        Ok(())
    }
}

// A byte: what is not printable ASCII as \xHH.
#[derive(Clone, Copy)]
struct PrintableByte(u8);

impl fmt::Display for PrintableByte {
    ghost output = { λ x. Some (shown_byte x.0) };

    fn fmt<W: fmt::Write>(&self, f: &mut fmt::Formatter<W>) -> fmt::Result {
        let byte = self.0;
        match byte {
            b' '..=b'~' => f.write_char(char::from(byte)),
            _ => write!(f, "\\x{byte:02X}"),
        }
    }
}
