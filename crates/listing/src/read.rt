// A control table as it is written: bytes of one or two hexadecimal digits, parted by spaces and line ends.
ghost use Rattle.std.specs.Prelude.{◌≡◌, ◌<◌, [], ◌∷◌, ◌++◌, map, None, Some, IfOk, IfErr, OnOk};
ghost use Rattle.listing.specs.declared.read.ReadFault.TheVariants.{Memory};
ghost use Rattle.text.specs.Numerals.{hexadecimal_of};
ghost use Rattle.text.specs.Pieces.{words_of, lines_of};
ghost use Rattle.listing.specs.Reads.{table_words, Say, Refusal, no_byte_in, NamesTheFirst};

use std::alloc::{AllocError, AllocFailed, Global};
use text::numeral::byte;
use text::pieces::{lines, words};

#[derive(Drop)]
pub enum ReadFault<'a> {
    // a word that is no byte, and its line, counted from 1
    NoByte { line: usize, word: &'a [u8] },
    Memory,
}

impl<'a> From<AllocError> for ReadFault<'a> {
    ghost from_gives = { λ _ r. r ≡ Memory };

    fn from(_fault: AllocError) -> ReadFault<'a> {
        ReadFault::Memory
    }
}

impl<'a, T: Drop> From<AllocFailed<T>> for ReadFault<'a> {
    ghost from_gives = { λ _ r. r ≡ Memory };

    fn from(_fault: AllocFailed<T>) -> ReadFault<'a> {
        ReadFault::Memory
    }
}

// The bytes of one line, behind those that there are.
fn read_line<'a>(
    heap: Global,
    bytes: &mut Vec<u8>,
    line: usize,
    text: &'a [u8],
) -> Result<(), ReadFault<'a>>
    requires { 0 < line }
    ensures bytes { OnOk result (map Some bytes.new.items ≡ map Some bytes.old.items ++ map (hexadecimal_of 2 0xff) (words_of text.now)) }
    ensures all { OnOk result (no_byte_in (words_of text.now) ≡ None) }
    ensures refusal { IfErr result Refusal }
    ensures first { IfErr result (NamesTheFirst line (text.now ∷ [])) }
{
    for word in words(heap, text)? {
        let value = byte(word).ok_or(ReadFault::NoByte { line, word })?;
        bytes.push(value)?;
    }
    Ok(())
}

// The bytes of a table, or the first word that is no byte.
pub fn read_table<'a>(heap: Global, text: &'a [u8]) -> Result<Vec<u8>, ReadFault<'a>>
    ensures bytes { IfOk result (λ v. Say (table_words text.now) v.items) }
    ensures refusal { IfErr result Refusal }
    ensures first { IfErr result (NamesTheFirst 1 (lines_of text.now)) }
{
    let mut bytes = Vec::new(heap);
    for (i, line) in lines(heap, text)?.into_iter().enumerate() {
        read_line(heap, &mut bytes, i + 1, line)?;
    }
    Ok(bytes)
}
