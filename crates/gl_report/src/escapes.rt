//! Names as text.
ghost use Rattle.std.specs.Prelude.{◌≡◌, ◌<◌, ◌++◌, false, string_bytes, IfOk, OnOk};
ghost use Rattle.std.specs.Fmt.{digit_glyph};
ghost use Rattle.gl_report.specs.Escapes.{escaped, escaped_byte};

use gl_event::Memory;
use std::alloc::Global;

// The lower-case hexadecimal digit.
fn hex_digit(digit: u8) -> char
    requires { digit < 16 }
    ensures glyph { result ≡ digit_glyph false digit }
    ensures ascii { result < 128 }
{
    if digit < 10 {
        return char::from(b'0' + digit);
    }
    char::from(b'a' + (digit - 10))
}

// Adds a byte of a name.
#[tactic(auto, unfolding(crate::specs::Escapes::escaped_byte))]
fn put_byte(text: &mut String, byte: u8) -> Result<(), Memory>
    ensures { OnOk result (string_bytes text.new ≡ string_bytes text.old ++ escaped_byte byte) }
{
    if byte >= 0x20 && byte <= 0x7e && byte != b'\\' {
        text.push(char::from(byte))?;
        return Ok(());
    }
    text.push_str("\\x")?;
    text.push(hex_digit(byte / 16))?;
    text.push(hex_digit(byte % 16))?;
    Ok(())
}

/// The name as text: printable ASCII other than the backslash as it is, and each other byte, the
/// backslash among them, as `\x` and two lower-case hexadecimal digits. Err where memory was refused.
pub fn escaped_name(alloc: Global, name: &[u8]) -> Result<String, Memory>
    ensures { IfOk result (λ t. string_bytes t ≡ escaped name.now) }
{
    let mut text = String::new(alloc);
    for &byte in name {
        put_byte(&mut text, byte)?;
    }
    Ok(text)
}
