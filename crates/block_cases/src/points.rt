//! How code points and bytes are written.

use std::alloc::AllocError;

/// Writes a code point in a text in which these printable characters are escaped.
pub fn push_point(text: &mut String, point: u32, escaped: &[u8]) -> Result<(), AllocError> {
    match u8::try_from(point) {
        Ok(byte) => push_byte(text, byte, escaped),
        Err(_) if point <= 0xFFFF => write!(text, "\\u{point:04X}"),
        Err(_) => write!(text, "\\U{point:08X}"),
    }
}

fn push_byte(text: &mut String, byte: u8, escaped: &[u8]) -> Result<(), AllocError> {
    if !matches!(byte, b' '..=b'~') {
        return write!(text, "\\x{byte:02X}");
    }
    if escaped.contains(&byte) {
        text.push('\\')?;
    }
    text.push(byte as char)
}

/// Writes bytes as they stand, but for line feeds, `\` and what is not printable.
pub fn push_bytes(text: &mut String, bytes: &[u8]) -> Result<(), AllocError> {
    for byte in bytes {
        match *byte {
            b'\n' => text.push_str("\\n")?,
            byte => push_byte(text, byte, b"\\")?,
        }
    }
    Ok(())
}
