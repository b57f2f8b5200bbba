// `--join`: a row of masked writes to one path is written as one request; every other request is passed on as its line has it.
ghost use Rattle.std.specs.Prelude.{◌<◌, ◌≤◌, length};

use crate::lines;
use crate::lines::{LONGEST, ROOM};
use crate::reply::Hex;
use cip::codes::MOST;
use input::{clicks, hex};
use std::io;
use std::io::Read;

/// A row of masked writes: the bytes of its request, how many were joined to it, and the line of the first.
#[derive(Clone, Copy)]
struct Row {
    len: u16,
    clicks: u64,
    line: u64,
    // What the type says, for a proof that has the row behind a reference.
    ghost small: { len < 65536 },
}

/// A line of the input, and its number.
#[derive(Clone, Copy)]
struct Line<'a> {
    text: &'a [u8],
    number: u64,
}

/// The row that is not written out yet, and its request at the start of as many bytes as a request may have.
#[derive(Drop)]
struct Held {
    bytes: [u8; MOST],
    row: Option<Row>,
}

impl Held {
    /// Writes the row's request out, with how many masked writes it stands for.
    fn flush(&mut self, to: &impl Print) -> io::Result<()> {
        let Some(row) = self.row else {
            return Ok(());
        };
        self.row = None;
        Hex(&self.bytes[..usize::from(row.len)]).show(to)?;
        if row.clicks > 1 {
            print!(to;
                " # joined: {} masked writes from line {} on",
                row.clicks, row.line
            )?;
        }
        to.write_all(b"\n")
    }

    /// A request that joins no row: a masked write begins one, and anything else is passed on.
    fn begin(&mut self, to: &impl Print, next: &[u8], line: Line) -> io::Result<()>
        requires { length next.now ≤ 65535 }
    {
        if clicks::is_masked_write(next) {
            cip::copy_into(&mut self.bytes, 0, next);
            self.row = Some(Row {
                len: next.len() as u16,
                clicks: 1,
                line: line.number,
            });
            return Ok(());
        }
        to.write_all(line.text)?;
        to.write_all(b"\n")
    }

    /// A request behind a row: joined to it, or the row ends.
    fn follow(&mut self, to: &impl Print, next: &[u8], line: Line) -> io::Result<()>
        requires { length next.now ≤ 65535 }
    {
        if let Some(row) = self.row
            && clicks::join(&mut self.bytes[..usize::from(row.len)], next)
        {
            self.row = Some(Row {
                len: row.len,
                clicks: row.clicks.wrapping_add(1),
                line: row.line,
            });
            return Ok(());
        }
        self.flush(to)?;
        self.begin(to, next, line)
    }

    /// One line of the input, whose request is read into `next`.
    fn take_line(
        &mut self,
        to: &impl Print,
        err: &impl Print,
        next: &mut [u8; MOST],
        line: Line,
    ) -> io::Result<()> {
        match hex::parse(line.text, next) {
            Ok(None) => Ok(()),
            Ok(Some(request)) => self.follow(to, &next[..request.len], line),
            Err(fault) => {
                self.flush(to)?;
                lines::complain(err, line.number, fault)
            }
        }
    }
}

/// Each line of the input, and the last row.
fn take_lines(to: &impl Print, err: &impl Print, input: &[u8]) -> io::Result<()> {
    let mut held = Held {
        bytes: [0; MOST],
        row: None,
    };
    let mut next = [0; MOST];
    for (i, text) in input.split(|b| *b == b'\n').enumerate() {
        let line = Line {
            text,
            number: i as u64 + 1,
        };
        held.take_line(to, err, &mut next, line)?;
    }
    held.flush(to)
}

/// Reads standard input to its end.
pub fn start(from: &mut impl Read, to: &impl Print, err: &impl Print) -> io::Result<()> {
    let mut input = [0u8; ROOM];
    let n = lines::read_full(from, &mut input)?;
    if n > LONGEST {
        return println!(err; "the input is longer than {LONGEST} characters");
    }
    take_lines(to, err, &input[..n])
}
