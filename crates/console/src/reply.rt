// Bytes as text, two hex digits each; a reply with its general status in words.
use std::{fmt, io};

/// Bytes that are spelled at once.
const PIECE: usize = 1024;

/// An upper-case hex digit of a number below 16.
fn digit(n: u8) -> u8 {
    match n {
        0..=9 => b'0' + n,
        10..=15 => b'A' + (n - 10),
        _ => b'?',
    }
}

/// Bytes as two hex digits and a space each. Not `input::bytes::Hex`: users see and send upper-case digits with the space behind.
#[derive(Clone, Copy)]
pub struct Hex<'a>(pub &'a [u8]);

impl<'a> Hex<'a> {
    /// Writes them, many at once and past the formatter, which takes a character at a time: a reply may have 65,535 bytes.
    pub fn show(self, to: &impl Print) -> io::Result<()> {
        let mut text = [[b' '; 3]; PIECE];
        for piece in self.0.chunks(PIECE) {
            for (three, b) in text.iter_mut().zip(piece) {
                *three = [digit(b / 16), digit(b % 16), b' '];
            }
            to.write_all(text[..piece.len()].as_flattened())?;
        }
        Ok(())
    }
}

/// The same text in a format, a byte at a time: `show` is much faster where there are many.
impl<'a> fmt::Display for Hex<'a> {
    fn fmt<W: fmt::Write>(&self, f: &mut fmt::Formatter<W>) -> fmt::Result {
        for b in self.0 {
            write!(f, "{b:02X} ")?;
        }
        Ok(())
    }
}

/// CIP Volume 1, Appendix B. A reply's code is a byte, and any: no enum has all.
fn general(code: u8) -> &'static str {
    match code {
        0x00 => "success",
        0x03 => "invalid parameter value",
        0x04 => "path segment error",
        0x05 => "path destination unknown",
        0x06 => "partial transfer",
        0x08 => "service not supported",
        0x0F => "privilege violation",
        0x11 => "reply data too large",
        0x13 => "not enough data",
        0x14 => "attribute not supported",
        0x15 => "too much data",
        0x1E => "embedded service error",
        0xFF => "general error",
        _ => "status not known",
    }
}

/// 1756-PM020's extended words. A reply's word may be any.
fn extended(word: u16) -> &'static str {
    match word {
        0x2100 => " 0x2100, access denied",
        0x2105 => " 0x2105, beyond end",
        0x2107 => " 0x2107, wrong type",
        _ => ", extended word not known",
    }
}

/// The status of a reply: its general code, and its first extended word where it has one.
#[derive(Clone, Copy)]
struct Status<'a>(&'a [u8]);

impl<'a> fmt::Display for Status<'a> {
    fn fmt<W: fmt::Write>(&self, f: &mut fmt::Formatter<W>) -> fmt::Result {
        let [_, _, code, words, rest @ ..] = self.0 else {
            return Ok(());
        };
        f.write_str(general(*code))?;
        match rest {
            [low, high, ..] if *words != 0 => f.write_str(extended(u16::from_le_bytes([
                *low, *high,
            ]))),
            _ => Ok(()),
        }
    }
}

/// A reply, and before it the number of the line that is answered, where it is asked for.
pub fn show(to: &impl Print, reply: &[u8], line: Option<u64>) -> io::Result<()> {
    if let Some(line) = line {
        print!(to; "{line}: ")?;
    }
    Hex(reply).show(to)?;
    println!(to; " # {}", Status(reply))
}

#[cfg(test)]
mod tests {
    use super::*;
    use std::test::Fail;

    // Upper-case digits and a space behind each byte, as replies are written; no byte is no text.
    #[test]
    fn hex_in_a_format(rt: HostRuntime) -> Result<(), Fail> {
        let alloc = rt.alloc();
        let text = format!(in alloc; "{}", Hex(&[0xCC, 0x00, 0x0A, 0x9F]))?;
        assert_eq!(rt; text.as_str(), "CC 00 0A 9F ");
        let none = format!(in alloc; "[{}]", Hex(&[]))?;
        assert_eq!(rt; none.as_str(), "[]");
        Ok(())
    }
}
