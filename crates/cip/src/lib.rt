// CIP replies in a lent buffer: little-endian numbers, the reply header, statuses, the zeros after a reply.
// Each writer's contract is one equation: the buffer at exit is the buffer at entry with these bytes put in.
#![tactic(auto)]

pub mod codes;
pub mod replies;

ghost use Rattle.std.specs.Prelude.{◌≡◌, [], ◌∷◌, ◌+◌, ◌%◌, ◌<◌, ◌≤◌, length};
ghost use Rattle.laws.specs.Put.{put, zeroed, laid};
ghost use Rattle.definition.specs.Bytes.{le16, le32, u16_at, u32_at};
ghost use Rattle.definition.specs.Reply.{reply, room, code_of};
ghost use Rattle.cip.specs.Statuses.{status_of, word_of};
ghost use Rattle.cip.specs.Writes.{Written, Laid};
ghost use Rattle.std.specs.Int.Bits.{bit_or};

/// Bit 7 of a reply's service byte.
const REPLY_BIT: u8 = 0x80;

/// The statuses of document 01's items 5 to 20.
#[derive(Clone, Copy)]
pub enum Status {
    Success,
    NoElements,
    PathError,
    PathUnknown,
    Partial,
    NotSupported,
    TooLarge,
    TooShort,
    NoAttribute,
    TooLong,
    PartFailed,
    Denied,
    BeyondEnd,
    WrongType,
}

impl Status {
    /// The general code.
    pub fn code(self) -> u8
        ensures { result ≡ code_of (status_of self) }
    {
        match self {
            Status::Success => 0x00,
            Status::NoElements => 0x03,
            Status::PathError => 0x04,
            Status::PathUnknown => 0x05,
            Status::Partial => 0x06,
            Status::NotSupported => 0x08,
            Status::TooLarge => 0x11,
            Status::TooShort => 0x13,
            Status::NoAttribute => 0x14,
            Status::TooLong => 0x15,
            Status::PartFailed => 0x1E,
            Status::Denied => 0x0F,
            Status::BeyondEnd | Status::WrongType => 0xFF,
        }
    }

    /// The extended word, of a status that brings one.
    pub fn word(self) -> Option<u16>
        ensures { result ≡ word_of (status_of self) }
    {
        match self {
            Status::Denied => Some(0x2100),
            Status::BeyondEnd => Some(0x2105),
            Status::WrongType => Some(0x2107),
            _ => None,
        }
    }
}

pub fn put_u8(buf: &mut [u8], at: usize, v: u8)
    requires { at < length buf.old }
    ensures { buf.new ≡ put buf.old at (v ∷ []) }
{
    buf[at] = v;
}

// Two widths, a line each over `copy_into`: it is here that the bytes become the definition's `le16` and `le32`.
pub fn put_u16(buf: &mut [u8], at: usize, v: u16)
    requires { at + 2 ≤ length buf.old }
    ensures { buf.new ≡ put buf.old at (le16 v) }
{
    copy_into(buf, at, &v.to_le_bytes());
}

pub fn put_u32(buf: &mut [u8], at: usize, v: u32)
    requires { at + 4 ≤ length buf.old }
    ensures { buf.new ≡ put buf.old at (le32 v) }
{
    copy_into(buf, at, &v.to_le_bytes());
}

pub fn u16_at(s: &[u8], at: usize) -> u16
    requires { at + 2 ≤ length s.now }
    ensures { result ≡ u16_at s.now at }
{
    u16::from_le_bytes([s[at], s[at + 1]])
}

pub fn u32_at(s: &[u8], at: usize) -> u32
    requires { at + 4 ≤ length s.now }
    ensures { result ≡ u32_at s.now at }
{
    u32::from_le_bytes([s[at], s[at + 1], s[at + 2], s[at + 3]])
}

/// The low 16 bits of a number. `as` alone is a conversion whose fact each caller would need.
pub fn low16(n: usize) -> u16
    ensures { result ≡ n % 65536 }
{
    (n % 65536) as u16
}

/// Copies as many bytes. The library's `copy_from_slice` is a call of `memmove`, which the archive would then need from its host.
fn copy(to: &mut [u8], from: &[u8])
    requires { length from.now ≡ length to.old }
    ensures { to.new ≡ from.now }
{
    for (i, byte) in to.iter_mut().enumerate() {
        *byte = from[i];
    }
}

/// Copies all of `src` into the buffer.
pub fn copy_into(buf: &mut [u8], at: usize, src: &[u8])
    requires { at + length src.now ≤ length buf.old }
    ensures { buf.new ≡ put buf.old at src.now }
{
    copy(&mut buf[at..at + src.len()], src);
}

pub fn zero_from(buf: &mut [u8], at: usize, end: usize)
    requires { (at ≤ end) × (end ≤ length buf.old) }
    ensures { buf.new ≡ zeroed at end buf.old }
{
    buf[at..end].fill(0);
}

/// Where the zeros after a reply end: max(8, limit).
pub fn room_of(limit: usize) -> usize
    ensures { result ≡ room limit }
{
    limit.max(8)
}

/// Service OR 0x80, 0 and the general status; the count of extended words follows.
fn put_start(buf: &mut [u8], service: u8, general: u8)
    requires { 3 ≤ length buf.old }
    ensures { buf.new ≡ put buf.old 0 (bit_or service 0x80 ∷ 0 ∷ general ∷ []) }
{
    put_u8(buf, 0, service | REPLY_BIT);
    put_u8(buf, 1, 0);
    put_u8(buf, 2, general);
}

/// The header of a reply, extended word included; returns its length.
pub fn put_header(buf: &mut [u8], service: u8, s: Status) -> usize
    requires { 8 ≤ length buf.old }
    ensures { Written 0 (reply service (status_of s) []) buf.old result buf.new }
{
    put_start(buf, service, s.code());
    let Some(word) = s.word() else {
        put_u8(buf, 3, 0);
        return 4;
    };
    put_u8(buf, 3, 1);
    put_u16(buf, 4, word);
    6
}

/// Zeros after the `used` bytes of a reply, up to max(8, limit); returns `used`.
// Here and wherever a reply is made, limit and buffer are parameters: what takes a struct of them by `&mut` could put another buffer in.
pub fn finish(buf: &mut [u8], limit: usize, used: usize) -> usize
    requires { (used ≤ room limit) × (room limit ≤ length buf.old) }
    ensures { (result ≡ used) × (buf.new ≡ zeroed used (room limit) buf.old) }
{
    zero_from(buf, used, room_of(limit));
    used
}

/// A reply without data, laid into the buffer; returns its length.
pub fn fail(buf: &mut [u8], limit: usize, service: u8, s: Status) -> usize
    requires { room limit ≤ length buf.old }
    ensures { Laid limit (reply service (status_of s) []) buf.old result buf.new }
{
    let used = put_header(buf, service, s);
    finish(buf, limit, used)
}
