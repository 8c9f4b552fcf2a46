ghost use Rattle.std.specs.Prelude.{◌≡◌, ◌≤◌, ◌<◌, ◌++◌, ◌==◌, ◌^◌, ℤ, pos, neg_ℤ, length, take, drop, OnOk, OnErr, IfSome, IsOkUnless, Some, None};
ghost use Rattle.std.specs.Prelude.{if◌then◌else◌};
ghost use Rattle.std.specs.Option.{option_map};
ghost use Rattle.std.specs.List.{position};
ghost use Rattle.std.specs.Int.{cast_unsigned};
ghost use Rattle.std.specs.Fmt.{signed_decimal};
ghost use Rattle.coll_kinds.specs.Elements.{width, word, is_pair, in_range, number_of, element_at, bits};
ghost use Rattle.byteorder.specs.Endian.{little_number};
ghost use Rattle.coll_kinds.specs.Texts.{number_in, pair_of, value_of, padded_bytes, text_of};
ghost use Rattle.coll_kinds.specs.declared.datatype.Datatype.TheVariants.{I32, Pair};

use crate::datatype::Datatype;
use crate::number::read_number;
use crate::refusal::Refusal;
use byteorder::{ByteOrder, LittleEndian};

/// Reads the decimal text of an element: a number, a `-` before it or none, in the type's range; of a pair
/// two such numbers with one comma between them. The answer holds the element's bytes, and zeros after
/// them. `-0` is 0 for every type.
pub fn read_element(word: &[u8], ty: Datatype) -> Option<[u8; 8]>
    ensures { result ≡ option_map (padded_bytes ty) (value_of ty word.now) }
{
    let bits = element_bits(word, ty)?;
    let mut bytes = [0u8; 8];
    LittleEndian::write_uint(&mut bytes, bits, ty.width());
    Some(bytes)
}

/// The bits of the element that the word says.
fn element_bits(word: &[u8], ty: Datatype) -> Option<u64>
    ensures bits { result ≡ option_map (bits ty) (value_of ty word.now) }
    ensures fit { IfSome result (λ b. b < 256 ^ width ty) }
{
    if ty.is_pair() {
        pair_bits(word)
    } else {
        number_bits(word, ty)
    }
}

/// The bits of a value and its index, which stands above it.
fn pair_bits(word: &[u8]) -> Option<u64>
    ensures bits { result ≡ option_map (bits Pair) (pair_of word.now) }
    ensures fit { IfSome result (λ b. b < 256 ^ 8) }
{
    let comma = comma_in(word)?;
    let value = number_bits(&word[..comma], Datatype::I32)?;
    let index = number_bits(&word[comma + 1..], Datatype::I32)?;
    Some(value + (index << 32))
}

/// Where the first comma stands.
fn comma_in(word: &[u8]) -> Option<usize>
    ensures at { result ≡ position (λ c. c == 44) word.now }
    ensures within { IfSome result (λ at. at < length word.now) }
{
    word.iter().position(|byte| *byte == b',')
}

/// The bits of a whole number in the type's range.
fn number_bits(text: &[u8], ty: Datatype) -> Option<u64>
    ensures bits { result ≡ option_map (cast_unsigned (word ty)) (number_in ty text.now) }
    ensures fit { IfSome result (λ b. b < 256 ^ width ty) }
{
    let (is_negative, digits) = match text {
        [b'-', digits @ ..] => (true, digits),
        _ => (false, text),
    };
    let number = read_number(digits)?;
    twos_complement(number, is_negative, ty)
}

/// The bits of a number, or of that number with a minus sign, where the type has it.
fn twos_complement(number: u128, is_negative: bool, ty: Datatype) -> Option<u64>
    ensures bits { let z = (if is_negative then neg_ℤ (pos number) else pos number) in
        result ≡ (if in_range ty z then Some (cast_unsigned (word ty) z) else None) }
    ensures fit { IfSome result (λ b. b < 256 ^ width ty) }
{
    let limit = ty.limit();
    if !is_negative || number == 0 {
        return if number < limit {
            Some(number as u64)
        } else {
            None
        };
    }
    if ty.is_signed() && number <= limit {
        Some((2 * limit - number) as u64)
    } else {
        None
    }
}

/// Appends the decimal text of the element in the first bytes of `bytes`, as [`read_element`] reads it. Refuses
/// [`Refusal::NoMemory`] alone, and `out` is then as before.
pub fn print_element(bytes: &[u8], ty: Datatype, out: &mut Vec<u8>) -> Result<(), Refusal>
    requires { width ty ≤ length bytes.now }
    ensures ok { OnOk result
        (out.new.items ≡ out.old.items ++ text_of (element_at ty bytes.now)) }
    ensures err { OnErr result (out.new.items ≡ out.old.items) }
    ensures refusal { IsOkUnless result Refusal.NoMemory }
{
    if !ty.is_pair() {
        return print_number(bytes, ty, out);
    }
    let old = out.len();
    let printed = print_pair(bytes, out);
    if printed.is_err() {
        out.truncate(old);
    }
    printed
}

/// Appends the value, a comma and the index. A refusal may leave a part of it.
fn print_pair(bytes: &[u8], out: &mut Vec<u8>) -> Result<(), Refusal>
    requires { 8 ≤ length bytes.now }
    ensures ok { OnOk result
        (out.new.items ≡ out.old.items ++ text_of (element_at Pair bytes.now)) }
    ensures err { OnErr result (take (length out.old.items) out.new.items ≡ out.old.items) }
    ensures refusal { IsOkUnless result Refusal.NoMemory }
{
    print_number(bytes, Datatype::I32, out)?;
    out.push(b',')?;
    print_number(&bytes[4..], Datatype::I32, out)
}

/// Appends the whole number in the first bytes of `bytes`.
fn print_number(bytes: &[u8], ty: Datatype, out: &mut Vec<u8>) -> Result<(), Refusal>
    requires { width ty ≤ length bytes.now }
    ensures ok { OnOk result
        (out.new.items ≡ out.old.items ++ signed_decimal (number_of ty (little_number (width ty) bytes.now))) }
    ensures err { OnErr result (out.new.items ≡ out.old.items) }
    ensures refusal { IsOkUnless result Refusal.NoMemory }
{
    let mut buffer = itoa::Buffer::new();
    let text = if ty.is_signed() {
        buffer.format(LittleEndian::read_int(bytes, ty.width()))
    } else {
        buffer.format(LittleEndian::read_uint(bytes, ty.width()))
    };
    out.extend_from_slice(text.as_bytes())?;
    Ok(())
}
