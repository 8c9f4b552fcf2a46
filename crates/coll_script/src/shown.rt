ghost use Rattle.std.specs.Prelude.{◌≤◌};

/// The character that shows a byte of a line, one column wide: a space for a tab and a carriage return, and a question mark for
/// any other byte that can't be printed.
pub fn shown_as(byte: u8) -> char
    ensures low { 32 ≤ result }
    ensures high { result ≤ 126 }
{
    match byte {
        b' '..=b'~' => char::from(byte),
        b'\t' | b'\r' => ' ',
        _ => '?',
    }
}
