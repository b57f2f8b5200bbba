// A line of input: an optional `@LIMIT`, then the request's bytes as two hex digits each; `#` starts a comment.
ghost use Rattle.std.specs.Prelude.{◌≡◌, ◌≤◌, length, drop, IfOk, IfSome};
ghost use Rattle.input.specs.Lines.{is_blank, digit_of, byte_of, lone_fault, after_blanks, word_in, is_number, limit_of};
ghost use Rattle.input.specs.Lines.{bytes_in, limited_by, asked_by, parsed, ReadsLine};

use std::error::Error;
use std::fmt;

/// The limit where a line names none.
const USUAL_LIMIT: usize = 500;

/// What keeps a line from being a request.
#[derive(Clone, Copy, Debug, PartialEq, Eq)]
pub enum Fault {
    Digit,
    Odd,
    NoNumber,
    OverLimit,
    TooLong,
}

impl fmt::Display for Fault {
    fn fmt<W: fmt::Write>(&self, f: &mut fmt::Formatter<W>) -> fmt::Result {
        f.pad(match self {
            Fault::Digit => "not a hex digit",
            Fault::Odd => "an odd number of hex digits",
            Fault::NoNumber => "the limit is not a number",
            Fault::OverLimit => "the limit is over 65535",
            Fault::TooLong => "the request is longer than 65535 bytes",
        })
    }
}

impl Error for Fault {}

/// A request that a line asks: its limit, and how many bytes it has. No slice of the buffer stands here: `parsed` says a request as a value of
/// this type, and a slice's address would be a part of it.
#[derive(Clone, Copy, Debug, PartialEq, Eq)]
pub struct Request {
    pub limit: usize,
    pub len: usize,
}

fn is_blank(c: u8) -> bool
    ensures { result ≡ is_blank c }
{
    matches!(c, b' ' | b'\t' | b'\r')
}

/// A hex digit's value, of a byte and in the definition's word: `to_digit` is of a `char`.
fn digit(c: u8) -> Option<u32>
    ensures { result ≡ digit_of c }
{
    char::from(c).to_digit(16)
}

/// The byte of two hex digits.
fn byte_of(high: u8, low: u8) -> Result<u8, Fault>
    ensures { result ≡ byte_of high low }
{
    let h = digit(high).ok_or(Fault::Digit)?;
    if is_blank(low) {
        return Err(Fault::Odd);
    }
    let l = digit(low).ok_or(Fault::Digit)?;
    Ok((16 * h + l) as u8)
}

/// What is wrong with a character that ends the line in the place of a byte.
fn lone_fault(c: u8) -> Fault
    ensures { result ≡ lone_fault c }
{
    if digit(c).is_some() {
        Fault::Odd
    } else {
        Fault::Digit
    }
}

/// The text from the first character on that is no blank.
fn after_blanks(text: &[u8]) -> &[u8]
    ensures { result.now ≡ after_blanks text.now }
{
    let blanks = text.iter().position(|c| !is_blank(*c));
    &text[blanks.unwrap_or(text.len())..]
}

/// The bytes of the text, into the request's buffer.
fn read_bytes(text: &[u8], limit: usize, request: &mut [u8]) -> Result<Option<Request>, Fault>
    ensures { ReadsLine (bytes_in limit (length request.old) 0 text.now) request.old result request.new }
{
    let mut rest = after_blanks(text);
    let mut len = 0;
    while let [high, low, behind @ ..] = rest {
        let byte = byte_of(*high, *low)?;
        if len >= request.len() {
            return Err(Fault::TooLong);
        }
        request[len] = byte;
        len += 1;
        rest = after_blanks(behind);
    }
    match rest {
        [] => Ok(Some(Request { limit, len })),
        [high, ..] => Err(lone_fault(*high)),
    }
}

/// One decimal digit or more, and nothing else.
fn is_number(word: &[u8]) -> bool
    ensures { result ≡ is_number word.now }
{
    !word.is_empty() && word.iter().all(u8::is_ascii_digit)
}

/// The limit that a word of decimal digits is. A sign, which `parse` would take, is no digit.
fn limit_of(word: &[u8]) -> Result<usize, Fault>
    ensures { result ≡ limit_of word.now }
{
    if !is_number(word) {
        return Err(Fault::NoNumber);
    }
    let digits = std::str::from_utf8(word).unwrap();
    match digits.parse::<u16>() {
        Ok(limit) => Ok(usize::from(limit)),
        Err(_) => Err(Fault::OverLimit),
    }
}

/// The text up to its first blank, and what stands from there on.
fn split_word(text: &[u8]) -> (&[u8], &[u8])
    ensures { (result.0.now ≡ word_in text.now) × (result.1.now ≡ drop (length (word_in text.now)) text.now) }
{
    let end = text.iter().position(|c| is_blank(*c));
    text.split_at(end.unwrap_or(text.len()))
}

/// The text behind the `@` of a limit.
fn limited(text: &[u8], request: &mut [u8]) -> Result<Option<Request>, Fault>
    ensures { ReadsLine (limited_by (length request.old) text.now) request.old result request.new }
{
    let (word, rest) = split_word(text);
    read_bytes(rest, limit_of(word)?, request)
}

/// The line up to its comment.
fn asked(text: &[u8], request: &mut [u8]) -> Result<Option<Request>, Fault>
    ensures { ReadsLine (asked_by (length request.old) text.now) request.old result request.new }
{
    match after_blanks(text) {
        [] => Ok(None),
        [first, rest @ ..] if *first == b'@' => limited(rest, request),
        rest => read_bytes(rest, USUAL_LIMIT, request),
    }
}

/// Reads a line, which may ask nothing; a request's bytes are put into the buffer.
pub fn parse(line: &[u8], request: &mut [u8]) -> Result<Option<Request>, Fault>
    ensures reads { ReadsLine (parsed (length request.old) line.now) request.old result request.new }
    ensures fits { IfOk result (λ o. IfSome o (λ a. (a.limit ≤ 65535) × (a.len ≤ length request.old))) }
{
    let end = crate::lines::find(line, b'#').unwrap_or(line.len());
    asked(&line[..end], request)
}
