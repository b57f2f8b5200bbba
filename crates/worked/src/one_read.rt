// P3: plain and fragmented reads of the pallet bench, and continued reads that a plain one opens.
use crate::asked;
use logix::entry::Refusal;
use std::io;

/// 0x4C of all `Rows`.
const OPEN: [u8; 10] = *b"\x4C\x03\x91\x04Rows\x0A\x00";

/// The number of value bytes of `Rows`.
const SELECTED: usize = 40;

/// Value bytes stand behind four bytes of reply header and two of type header.
fn brought(told: Result<usize, Refusal>) -> usize {
    told.unwrap_or(0).saturating_sub(6)
}

/// Sends a read to the bench and shows it; the number of value bytes that it brings.
fn read(to: &impl Print, request: &[u8], limit: usize) -> io::Result<usize> {
    let mut memory = pallet::MEMORY;
    let mut buf = [0xEE; 110];
    let told = pallet::message(&mut memory, request, limit, &mut buf);
    asked::show(to, request, limit, told, &buf)?;
    Ok(brought(told))
}

/// 0x52 of all `Rows` from an offset on.
fn read_from(to: &impl Print, offset: usize, limit: usize) -> io::Result<usize> {
    let mut request = *b"\x52\x03\x91\x04Rows\x0A\x00\x00\x00\x00\x00";
    cip::put_u16(&mut request, 10, cip::low16(offset));
    read(to, &request, limit)
}

/// Both kinds of read, whole, cut, with data behind the fields, and short.
pub fn fields(to: &impl Print) -> io::Result<()> {
    read(to, b"\x4C\x03\x91\x04Rows\x0A\x00\x10\x00\x00\x00", 22)?;
    read(to, b"\x52\x03\x91\x04Rows\x0A\x00", 22)?;
    read(to, b"\x4C\x03\x91\x04Rows\x0A", 22)?;
    read(to, b"\x52\x03\x91\x04Rows\x00\x00\x64\x00\x00\x00", 22)?;
    read(
        to,
        b"\x52\x06\x91\x04Cell\x91\x03Run\x00\x01\x00\x01\x00\x00\x00",
        100,
    )?;
    // the path's status before that of short data
    read(to, b"\x4C\x03\x91\x04Rowz", 22)?;
    // no room for a byte: it opens nothing
    read(to, &OPEN, 6)?;
    Ok(())
}

/// A continued read that a 0x4C opens: at one limit, then 0x52 at the bytes received at another, until all are there or nothing comes.
fn opened(to: &impl Print, first: usize, limit: usize) -> io::Result<()> {
    let mut received = read(to, &OPEN, first)?;
    let mut answers = 1usize;
    // no `for`: how many answers it takes is what the answers say
    while received < SELECTED {
        let n = read_from(to, received, limit)?;
        if n == 0 {
            break;
        }
        received += n.min(SELECTED - received);
        answers += 1;
    }
    println!(to; "answers {answers}, bytes {received}")
}

pub fn continued(to: &impl Print) -> io::Result<()> {
    opened(to, 22, 22)?;
    opened(to, 46, 46)?;
    opened(to, 45, 45)?;
    opened(to, 30, 22)?;
    opened(to, 9, 9)
}

/// A 0x4C that the entry refuses for its buffer of 7 bytes; a 0x52 at 0 takes its place.
pub fn replaced(to: &impl Print) -> io::Result<()> {
    let mut memory = pallet::MEMORY;
    let mut buf = [0xEE; 7];
    let told = pallet::message(&mut memory, &OPEN, 22, &mut buf);
    asked::show(to, &OPEN, 22, told, &buf)?;
    read_from(to, 0, 22)?;
    read_from(to, 16, 22)?;
    Ok(())
}

/// A second 0x4C is no read of the rest: it brings the first bytes again.
pub fn again(to: &impl Print) -> io::Result<()> {
    read(to, &OPEN, 22)?;
    read(to, &OPEN, 22)?;
    Ok(())
}
