//! Cuts a text into lines, and a line into words, without a copy of its bytes.

ghost use Rattle.std.specs.Prelude.{◌≡◌, length, OnOk};
ghost use Rattle.coll_parser.specs.Cutting.{body_of, lines_of, words_of};
ghost use Rattle.coll_parser.specs.Code.{texts};

use std::alloc::AllocError;

/// The text without the line feed at its end. The parts between line feeds are then its lines.
pub(crate) fn body(text: &[u8]) -> &[u8]
    ensures { result.now ≡ body_of text.now }
{
    match text {
        [body @ .., b'\n'] => body,
        _ => text,
    }
}

/// Replaces the words in `words` by those of a line. Linear in the line. It uses the memory of earlier lines again, so it
/// mostly needs no more.
pub(crate) fn cut<'a>(line: &'a [u8], words: &mut Vec<&'a [u8]>) -> Result<(), AllocError>
    ensures { OnOk result (texts words.new.items ≡ words_of line.now) }
{
    words.clear();
    words.extend(
        line.split(|b| matches!(*b, b' ' | b'\t' | b'\r'))
            .filter(|word| !word.is_empty()),
    )
}

/// How many lines a text has. Linear in the text.
pub fn line_count(text: &[u8]) -> usize
    ensures { result ≡ length (lines_of text.now) }
{
    body(text).split(|b| *b == b'\n').count()
}
