// A text's lines and a line's words, as parts of the text.
ghost use Rattle.std.specs.Prelude.{◌≡◌, IfOk};
ghost use Rattle.text.specs.Pieces.{parts_of, not_empty, uncommented_of, lines_of, words_of, seen};

use std::alloc::{AllocError, Global};

// The lines of a text: its parts between line feeds.
pub fn lines<'a>(heap: Global, text: &'a [u8]) -> Result<Vec<&'a [u8]>, AllocError>
    ensures { IfOk result (λ v. seen v.items ≡ lines_of text.now) }
{
    parts(heap, text, b'\n')
}

// The words of a line: what its spaces part, up to a `#`.
pub fn words<'a>(heap: Global, line: &'a [u8]) -> Result<Vec<&'a [u8]>, AllocError>
    ensures { IfOk result (λ v. seen v.items ≡ words_of line.now) }
{
    chosen(heap, uncommented(line), b' ')
}

// The parts of a text between one separator and the next, empty ones too.
fn parts<'a>(heap: Global, text: &'a [u8], separator: u8) -> Result<Vec<&'a [u8]>, AllocError>
    ensures { IfOk result (λ v. seen v.items ≡ parts_of separator text.now) }
{
    text.split(|byte| *byte == separator).collect(heap)
}

// Those of them that are not empty.
fn chosen<'a>(heap: Global, text: &'a [u8], separator: u8) -> Result<Vec<&'a [u8]>, AllocError>
    ensures { IfOk result (λ v. seen v.items ≡ not_empty (parts_of separator text.now)) }
{
    text.split(|byte| *byte == separator)
        .filter(|part| !part.is_empty())
        .collect(heap)
}

// The part of a line in front of its comment.
fn uncommented(line: &[u8]) -> &[u8]
    ensures { result.now ≡ uncommented_of line.now }
{
    // a `match`: by `map_or`, or by the first part of a `split`, the goal stayed open
    match line.iter().position(|byte| *byte == b'#') {
        Some(comment) => &line[..comment],
        None => line,
    }
}
