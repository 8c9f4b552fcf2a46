ghost use Rattle.std.specs.Prelude.{◌≡◌};

/// The most digits of a number, leading zeros among them.
const MAX_DIGITS: usize = 20;

ghost use Rattle.coll_kinds.specs.Texts.{number_of};

/// Reads a number: one to twenty ASCII digits, whatever their value. Linear in the word.
pub fn read_number(word: &[u8]) -> Option<u128>
    ensures { result ≡ number_of word.now }
{
    if word.is_empty() || word.len() > MAX_DIGITS {
        return None;
    }
    let mut number = 0u128;
    for digit in word {
        if !digit.is_ascii_digit() {
            return None;
        }
        number = 10 * number + u128::from(digit - b'0');
    }
    Some(number)
}
