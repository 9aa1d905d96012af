//! The lines of a text, and the words of a line.

ghost use Rattle.std.specs.Prelude.{◌≡◌, IfOk, position};
ghost use Rattle.std.specs.Option.{option_copied};
ghost use Rattle.gl_lines.specs.Lines.{cut, is_byte, line_count, lines_of};
ghost use Rattle.gl_lines.specs.Words.{words_of};
ghost use Rattle.gl_lines.specs.Parts.{parts_of, bytes_of};

use std::alloc::{AllocError, Global};

/// How many lines a text has, a last one without its newline too.
pub fn line_count(text: &[u8]) -> usize
    ensures { result ≡ line_count text.now }
{
    let ended = text.iter().filter(|byte| **byte == b'\n').count();
    match text.last() {
        Some(byte) if *byte != b'\n' => ended + 1,
        _ => ended,
    }
}

/// The parts of a text that end with this byte, without it, and what stands after the last.
fn parts_of(alloc: Global, text: &[u8], end: u8) -> Result<(Vec<&[u8]>, &[u8]), AllocError>
    ensures { IfOk result (λ x. parts_of end text.now
        ≡ record { lines = bytes_of x.0.items; open_line = x.1.now }) }
{
    let mut parts = Vec::new(alloc);
    let mut start = 0;
    for (i, byte) in text.iter().enumerate() {
        if *byte == end {
            let (prefix, _) = text.split_at(i);
            let (_, part) = prefix.split_at(start);
            parts.push(part)?;
            start = i + 1;
        }
    }
    let (_, open) = text.split_at(start);
    Ok((parts, open))
}

/// The lines of a text, without their newlines, and the open line after them.
pub(crate) fn lines_of(alloc: Global, text: &[u8]) -> Result<(Vec<&[u8]>, &[u8]), AllocError>
    ensures { IfOk result (λ x. lines_of text.now
        ≡ record { lines = bytes_of x.0.items; open_line = x.1.now }) }
{
    parts_of(alloc, text, b'\n')
}

/// The words of a line.
pub(crate) fn words_of(alloc: Global, line: &[u8]) -> Result<Vec<&[u8]>, AllocError>
    ensures { IfOk result (λ words. bytes_of words.items ≡ words_of line.now) }
{
    let (mut words, last) = parts_of(alloc, line, b' ')?;
    words.push(last)?;
    Ok(words)
}

fn first_place(text: &[u8], byte: u8) -> Option<usize>
    ensures { result ≡ position (is_byte byte) text.now }
{
    text.iter().position(|other| *other == byte)
}

/// A text up to the first such byte, and what stands after that byte, if the text has one.
pub(crate) fn cut(text: &[u8], byte: u8) -> (&[u8], Option<&[u8]>)
    ensures { cut byte text.now
        ≡ record { prefix = result.0.now; suffix = option_copied result.1 } }
{
    match first_place(text, byte) {
        None => (text, None),
        Some(place) => {
            let (prefix, suffix) = text.split_at(place);
            let (_, rest) = suffix.split_at(1);
            (prefix, Some(rest))
        }
    }
}
