//! Texts as strings of JSON.

ghost use Rattle.std.specs.Prelude.{◌≡◌, ◌++◌, ◌<◌, flat_map, OnOk};
ghost use Rattle.coll_html.specs.Quoted.{byte_text, code_text, hex_digit, quoted};

use std::alloc::AllocError;

/// Appends a text as a string of JSON. The string may stand in a script of a page: without a `<` it can't end the script.
pub(crate) fn push_quoted(out: &mut Vec<u8>, text: &[u8]) -> Result<(), AllocError>
    ensures { OnOk result (out.new.items ≡ out.old.items ++ quoted text.now) }
{
    out.extend_from_slice(b"\"")?;
    push_bytes(out, text)?;
    out.extend_from_slice(b"\"")
}

/// Appends each byte as it is written in a string of JSON.
fn push_bytes(out: &mut Vec<u8>, text: &[u8]) -> Result<(), AllocError>
    ensures { OnOk result (out.new.items ≡ out.old.items ++ flat_map byte_text text.now) }
{
    for byte in text {
        push_byte(out, *byte)?;
    }
    Ok(())
}

/// Appends a byte as it is written in a string of JSON. Bytes of characters beyond ASCII stay as they are.
fn push_byte(out: &mut Vec<u8>, byte: u8) -> Result<(), AllocError>
    ensures { OnOk result (out.new.items ≡ out.old.items ++ byte_text byte) }
{
    if byte == b'"' || byte == b'\\' {
        return out.extend_from_slice(&[b'\\', byte]);
    }
    if byte < b' ' || byte == b'<' {
        return push_code(out, byte);
    }
    out.extend_from_slice(&[byte])
}

/// Appends the number of a character: `\u003c` for `<`.
fn push_code(out: &mut Vec<u8>, byte: u8) -> Result<(), AllocError>
    ensures { OnOk result (out.new.items ≡ out.old.items ++ code_text byte) }
{
    out.extend_from_slice(b"\\u00")?;
    out.extend_from_slice(&[hex_digit(byte / 16), hex_digit(byte % 16)])
}

/// The digit of a number below 16.
fn hex_digit(number: u8) -> u8
    requires { number < 16 }
    ensures { result ≡ hex_digit number }
{
    if number < 10 {
        b'0' + number
    } else {
        b'a' + (number - 10)
    }
}
