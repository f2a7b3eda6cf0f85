//! The bytes that a line of text means.
use std::alloc::{AllocError, Global};

/// The part of an escape that was read.
#[derive(Clone, Copy)]
enum Begun {
    Nothing,
    Backslash,
    Hexadecimal,
    FirstDigit(u8),
}

/// The value of a lower-case hexadecimal digit, or 0 for any other byte.
fn digit(byte: u8) -> u8 {
    match byte {
        b'0'..=b'9' => byte - b'0',
        b'a'..=b'f' => byte - b'a' + 10,
        _ => 0,
    }
}

/// The byte that one more byte of the text gives, if any, and the part of an escape after it.
fn step(begun: Begun, byte: u8) -> (Option<u8>, Begun) {
    match begun {
        Begun::Nothing if byte == b'\\' => (None, Begun::Backslash),
        Begun::Nothing => (Some(byte), Begun::Nothing),
        Begun::Backslash => match byte {
            b'n' => (Some(b'\n'), Begun::Nothing),
            b'r' => (Some(b'\r'), Begun::Nothing),
            b't' => (Some(b'\t'), Begun::Nothing),
            b'x' => (None, Begun::Hexadecimal),
            _ => (Some(byte), Begun::Nothing),
        },
        Begun::Hexadecimal => (None, Begun::FirstDigit(digit(byte))),
        Begun::FirstDigit(first) => {
            let value = first.wrapping_mul(16).wrapping_add(digit(byte));
            (Some(value), Begun::Nothing)
        }
    }
}

/// The bytes that a text means: `\n`, `\r`, `\t`, `\\` and `\xHH` are the bytes that they name, and every other byte is
/// itself.
pub fn bytes_of(alloc: Global, text: &str) -> Result<Vec<u8>, AllocError> {
    let mut bytes = Vec::new(alloc);
    let mut begun = Begun::Nothing;
    for byte in text.bytes() {
        let (made, next) = step(begun, byte);
        if let Some(made) = made {
            bytes.push(made)?;
        }
        begun = next;
    }
    Ok(bytes)
}
