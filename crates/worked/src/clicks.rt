// P13: masked writes in a row to the plant of P11's page, one by one and joined into one request.
ghost use Rattle.std.specs.Prelude.{◌-◌, ◌*◌, ◌≤◌, length};

use crate::{asked, plant};
use input::bytes::Hex;
use std::io;
use std::ops::Range;

/// Sends a message and shows it with its reply.
fn send(to: &impl Print, memory: &mut [u8], request: &[u8]) -> io::Result<()> {
    let mut buf = [0xEE; 110];
    let told = plant::message(memory, request, 100, &mut buf);
    asked::show(to, request, 100, told, &buf)
}

/// Bytes behind a word.
fn show(to: &impl Print, word: &str, bytes: &[u8]) -> io::Result<()> {
    println!(to; "{word}{}", Hex(bytes))
}

/// The bytes of a target.
fn left(to: &impl Print, memory: &[u8], target: Range<usize>) -> io::Result<()>
    requires { (target.start ≤ target.end) × (target.end ≤ length memory.now) }
{
    show(to, "left", &memory[target])
}

/// The first request with the masks of the second joined to its own, by `join_at`; the masks are the last bytes of both.
fn joined(first: &[u8], next: &[u8], size: usize) -> [u8; 40]
    requires { (2 * size ≤ length first.now) × (2 * size ≤ length next.now) × (length first.now ≤ 40) }
{
    let mut request = [0; 40];
    request[..first.len()].copy_from_slice(first);
    let at = first.len() - 2 * size;
    let ors = next.len() - 2 * size;
    let ands = next.len() - size;
    writes::masks::join_at(&mut request, at, &next[ors..ands], &next[ands..]);
    request
}

/// Two masked writes of all bytes of a target, one behind the other, and then one with their masks joined.
fn row(to: &impl Print, first: &[u8], next: &[u8], target: Range<usize>) -> io::Result<()>
    requires inside { (target.start ≤ target.end) × (target.end ≤ 190) }
    requires masked { (2 * (target.end - target.start) ≤ length first.now) × (2 * (target.end - target.start) ≤ length next.now) }
    requires fits { length first.now ≤ 40 }
{
    let Range { start, end } = target;
    let mut clicked = plant::MEMORY;
    send(to, &mut clicked, first)?;
    send(to, &mut clicked, next)?;
    left(to, &clicked, start..end)?;
    let request = joined(first, next, end - start);
    let n = first.len();
    let mut single = plant::MEMORY;
    send(to, &mut single, &request[..n])?;
    left(to, &single, start..end)?;
    if clicked == single {
        println!(to; "the same memory")
    } else {
        println!(to; "another memory")
    }
}

/// `Count` five times, once by its instance ID.
fn rows_of_count(to: &impl Print) -> io::Result<()> {
    row(
        to,
        b"\x4E\x04\x91\x05Count\x00\x04\x00\x01\x00\x00\x00\x0F\x00\x00\x00",
        b"\x4E\x04\x91\x05Count\x00\x04\x00\xF0\x00\x00\x00\xFF\x00\x00\x00",
        0..4,
    )?;
    row(
        to,
        b"\x4E\x04\x91\x05Count\x00\x04\x00\x00\x00\x00\x00\x00\x00\x00\x00",
        b"\x4E\x04\x91\x05Count\x00\x04\x00\x80\x00\x00\x01\xFF\xFF\xFF\xFF",
        0..4,
    )?;
    row(
        to,
        b"\x4E\x04\x91\x05Count\x00\x04\x00\xFF\xFF\xFF\xFF\xFF\xFF\xFF\xFF",
        b"\x4E\x04\x91\x05Count\x00\x04\x00\x00\x00\x00\x00\x00\xFF\x00\xFF",
        0..4,
    )?;
    row(
        to,
        b"\x4E\x04\x91\x05Count\x00\x04\x00\x00\x00\x00\x00\xFF\xFF\xFF\xFF",
        b"\x4E\x04\x91\x05Count\x00\x04\x00\x00\x00\x00\x00\xFF\xFF\xFF\xFF",
        0..4,
    )?;
    row(
        to,
        b"\x4E\x04\x91\x05Count\x00\x04\x00\x04\x00\x00\x00\xFB\xFF\xFF\xFF",
        b"\x4E\x02\x20\x6B\x24\x01\x04\x00\x05\x00\x00\x00\xFE\xFF\xFF\xFF",
        0..4,
    )
}

/// `Rows` and `Rows[0]`; `Grid`; `Step` in two spellings.
fn rows_of_others(to: &impl Print) -> io::Result<()> {
    row(
        to,
        b"\x4E\x03\x91\x04Rows\x04\x00\x10\x20\x00\x00\xF0\xFF\xFF\xFF",
        b"\x4E\x04\x91\x04Rows\x28\x00\x04\x00\x00\x00\x00\x80\xFF\x0F\xFF\xFF",
        4..8,
    )?;
    row(
        to,
        b"\x4E\x03\x91\x04Grid\x02\x00\x00\x01\xF0\xFF",
        b"\x4E\x03\x91\x04Grid\x02\x00\x0F\x00\x3F\xFF",
        48..50,
    )?;
    row(
        to,
        b"\x4E\x0A\x91\x0CProgram:Main\x91\x04Step\x02\x00\x08\x00\xFF\xFF",
        b"\x4E\x0A\x91\x0CPROGRAM:main\x91\x04STEP\x02\x00\x00\x00\xF8\xFF",
        188..190,
    )
}

/// The page's rows.
pub fn rows(to: &impl Print) -> io::Result<()> {
    rows_of_count(to)?;
    rows_of_others(to)
}

/// A write between the two changes tag memory, and the row is none; a masked write that is not accepted leaves the first one's bytes.
pub fn no_rows(to: &impl Print) -> io::Result<()> {
    let mut memory = plant::MEMORY;
    send(
        to,
        &mut memory,
        b"\x4E\x04\x91\x05Count\x00\x04\x00\x01\x00\x00\x00\x0F\x00\x00\x00",
    )?;
    send(
        to,
        &mut memory,
        b"\x4D\x04\x91\x05Count\x00\xC4\x00\x01\x00\x0F\x00\x00\x00",
    )?;
    send(
        to,
        &mut memory,
        b"\x4E\x04\x91\x05Count\x00\x04\x00\xF0\x00\x00\x00\xFF\x00\x00\x00",
    )?;
    left(to, &memory, 0..4)?;
    let mut shorter = plant::MEMORY;
    send(
        to,
        &mut shorter,
        b"\x4E\x04\x91\x05Count\x00\x04\x00\x01\x00\x00\x00\x0F\x00\x00\x00",
    )?;
    send(
        to,
        &mut shorter,
        b"\x4E\x04\x91\x05Count\x00\x04\x00\xF0\x00\x00\x00\xFF\x00\x00",
    )?;
    left(to, &shorter, 0..4)
}

/// Two pairs of masks of four bytes joined.
fn pairs(
    to: &impl Print,
    ors: [u8; 4],
    ands: [u8; 4],
    next_ors: &[u8],
    next_ands: &[u8],
) -> io::Result<()> {
    let mut joined_ors = ors;
    let mut joined_ands = ands;
    if writes::masks::join_masks(&mut joined_ors, &mut joined_ands, next_ors, next_ands) {
        show(to, "joined OR", &joined_ors)?;
        return show(to, "joined AND", &joined_ands);
    }
    show(to, "not joined OR", &joined_ors)?;
    show(to, "not joined AND", &joined_ands)
}

/// Masks alone: the first rows; an OR mask that the first AND mask does not narrow; masks of different lengths, which stay as they were.
pub fn masks(to: &impl Print) -> io::Result<()> {
    pairs(
        to,
        *b"\x01\x00\x00\x00",
        *b"\x0F\x00\x00\x00",
        b"\xF0\x00\x00\x00",
        b"\xFF\x00\x00\x00",
    )?;
    pairs(
        to,
        *b"\x00\x00\x00\x00",
        *b"\x00\x00\x00\x00",
        b"\x80\x00\x00\x01",
        b"\xFF\xFF\xFF\xFF",
    )?;
    pairs(
        to,
        *b"\xFF\x00\x00\x00",
        *b"\x00\x00\x00\x00",
        b"\x00\x00\x00\x00",
        b"\xFF\xFF\xFF\xFF",
    )?;
    pairs(
        to,
        *b"\x01\x02\x03\x04",
        *b"\x05\x06\x07\x08",
        b"\xF0\xF0\xF0\xF0",
        b"\xFF\xFF\xFF",
    )
}

/// Whole requests, as the simulator joins them: to one path, to a path in other bytes, and one that is cut short.
fn request(to: &impl Print, next: &[u8]) -> io::Result<()> {
    let mut joined = *b"\x4E\x04\x91\x05Count\x00\x04\x00\x01\x00\x00\x00\x0F\x00\x00\x00";
    if input::clicks::join(&mut joined, next) {
        return show(to, "one request", &joined);
    }
    show(to, "not joined", next)
}

pub fn requests(to: &impl Print) -> io::Result<()> {
    request(
        to,
        b"\x4E\x04\x91\x05Count\x00\x04\x00\xF0\x00\x00\x00\xFF\x00\x00\x00",
    )?;
    request(
        to,
        b"\x4E\x04\x91\x05COUNT\x00\x04\x00\xF0\x00\x00\x00\xFF\x00\x00\x00",
    )?;
    request(
        to,
        b"\x4E\x04\x91\x05Count\x00\x04\x00\xF0\x00\x00\x00\xFF\x00\x00",
    )?;
    request(
        to,
        b"\x4D\x04\x91\x05Count\x00\xC4\x00\x01\x00\x0F\x00\x00\x00",
    )
}
