//! A text with one line moved.

ghost use Rattle.std.specs.Prelude.{◌≡◌, ◌<◌, ◌≤◌, IfOk, length};
ghost use Rattle.coll_diagnosis.specs.Cures.{back, front, left_after, lines_len, moved_in, moved_text};

use std::alloc::{AllocError, Global};

/// The text with one line moved to the place after a later one. Its last line ends in a line feed, so a blank line may come after it.
pub(crate) fn moved(
    alloc: Global,
    text: &[u8],
    line: u32,
    after: u32,
) -> Result<Vec<u8>, AllocError>
    ensures { IfOk result (λ moved. moved.items ≡ moved_text line after text.now) }
{
    let mut whole = Vec::from_slice(alloc, text)?;
    whole.push(b'\n')?;
    moved_in(
        alloc,
        &whole,
        line.saturating_sub(1),
        after.saturating_sub(line),
    )
}

/// Moves the line that `before` others are before to the place after `between` later ones.
fn moved_in(alloc: Global, text: &[u8], before: u32, between: u32) -> Result<Vec<u8>, AllocError>
    ensures { IfOk result (λ moved. moved.items ≡ moved_in before between text.now) }
{
    let (start, rest) = cut(text, before);
    let (line, rest) = cut(rest, 1);
    let (middle, end) = cut(rest, between);
    let mut moved = Vec::from_slice(alloc, start)?;
    moved.extend_from_slice(middle)?;
    moved.extend_from_slice(line)?;
    moved.extend_from_slice(end)?;
    Ok(moved)
}

/// The first lines of a text, each with its line feed, and those after them.
fn cut(text: &[u8], lines: u32) -> (&[u8], &[u8])
    ensures front { result.0.now ≡ front lines text.now }
    ensures back { result.1.now ≡ back lines text.now }
{
    text.split_at(lines_len(text, lines))
}

/// How many bytes the first lines of a text have.
fn lines_len(text: &[u8], lines: u32) -> usize
    ensures few { result ≤ length text.now }
    ensures is { result ≡ lines_len text.now lines }
{
    let mut left = lines;
    for (index, byte) in text.iter().enumerate() {
        if left == 0 {
            return index;
        }
        left = left_after(*byte, left);
    }
    text.len()
}

/// How many lines are left after a byte.
fn left_after(byte: u8, lines: u32) -> u32
    requires { 0 < lines }
    ensures { result ≡ left_after byte lines }
{
    if byte == b'\n' { lines - 1 } else { lines }
}
