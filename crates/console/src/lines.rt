// Standard input read into a fixed buffer, a line that is longer than it, and one that is no request.
ghost use Rattle.std.specs.Prelude.{◌≡◌, ◌<◌, ◌≤◌, true, length, take, IfOk, OnErr};
ghost use Rattle.input.specs.Text.{More};

use input::hex::Fault;
use input::lines::Cursor;
use std::io;
use std::io::Read;

/// The characters of the longest line, and of the longest input that is read whole.
pub const LONGEST: usize = 262143;

/// The bytes of a buffer for them: one more, for the end of the last line.
pub const ROOM: usize = LONGEST + 1;

/// A line that fills the buffer is said to be too long once; what comes of it further on is dropped.
pub fn overflow(to: &impl Print, place: Cursor) -> io::Result<Cursor>
    ensures { IfOk result (λ next. (next.at ≡ 0) × (next.line ≡ place.line) × (next.skipping ≡ true)) }
{
    if !place.skipping {
        println!(to; "line {}: longer than {LONGEST} characters", place.line)?;
    }
    Ok(Cursor {
        at: 0,
        skipping: true,
        ..place
    })
}

/// Reads once behind what is there and answers the new end, none where the input has ended: `ended` of the number of bytes
/// that came. A read that fails changes nothing of what was there.
pub fn read_more(from: &mut impl Read, input: &mut [u8], at: usize) -> io::Result<Option<usize>>
    requires { at < length input.old }
    ensures came { IfOk result (λ end. More at input.old input.new end) }
    ensures failed { OnErr result ((take at input.new ≡ take at input.old) × (length input.new ≡ length input.old)) }
{
    let n = from.read(&mut input[at..])?;
    Ok(input::lines::ended(input, at, n))
}

/// Reads until the buffer is full or the input ends, and answers how many bytes it put at the buffer's start.
pub fn read_full(from: &mut impl Read, input: &mut [u8]) -> io::Result<usize>
    ensures { IfOk result (λ n. n ≤ length input.old) }
{
    let room = input.len();
    let mut rest = input;
    io::copy(&mut from.take(room as u64), &mut rest)?;
    Ok(room.saturating_sub(rest.len()))
}

/// Says what keeps a line from being a request.
pub fn complain(to: &impl Print, line: u64, f: Fault) -> io::Result<()> {
    println!(to; "line {line}: {f}")
}
