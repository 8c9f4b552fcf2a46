ghost use Rattle.std.specs.Prelude.{◌+◌, ◌≤◌, length};

/// Up to three i32 values.
#[derive(Clone, Copy, Debug, PartialEq)]
pub enum UpToThree {
    Empty,
    One(i32),
    Three(i32, i32, i32),
    /// Another number of bytes, which no row has.
    Other(usize),
}

impl UpToThree {
    /// The values whose bytes these are.
    pub fn of(bytes: &[u8]) -> UpToThree {
        match bytes.len() {
            0 => UpToThree::Empty,
            4 => UpToThree::One(value_at(bytes, 0)),
            12 => UpToThree::Three(value_at(bytes, 0), value_at(bytes, 4), value_at(bytes, 8)),
            count => UpToThree::Other(count),
        }
    }
}

/// The i32 value that begins at that byte.
fn value_at(bytes: &[u8], from: usize) -> i32
    requires { from + 4 ≤ length bytes.now }
{
    i32::from_le_bytes([
        bytes[from],
        bytes[from + 1],
        bytes[from + 2],
        bytes[from + 3],
    ])
}
