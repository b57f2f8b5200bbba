// Continued reads of `Rows` and continued symbol pages of the pallet bench, joined.
use crate::ask;
use crate::tally::{Tally, first};
use std::io;

/// The data of an exchange's replies, joined: its bytes are the first of the buffer. It ends with a reply of status 0 and goes on after one of 0x06.
#[derive(Drop)]
struct Joined {
    buffer: [u8; 64],
    len: usize,
    replies: usize,
    ended: bool,
}

impl Joined {
    /// Before the first reply.
    fn new() -> Joined {
        Joined {
            buffer: [0; 64],
            len: 0,
            replies: 0,
            ended: false,
        }
    }

    fn bytes(&self) -> &[u8] {
        first(&self.buffer, self.len)
    }

    /// Joins a reply's data behind the bytes received; none where it breaks off.
    fn join(mut self, status: u8, data: &[u8]) -> Option<Joined> {
        let at = self.len;
        let end = at.checked_add(data.len())?;
        self.buffer.get_mut(at..end)?.copy_from_slice(data);
        self.len = end;
        self.replies = self.replies.wrapping_add(1);
        self.ended = status == 0;
        matches!(status, 0 | 6).then_some(self)
    }

    /// Sends a request and joins what follows the reply's header.
    fn exchange(self, request: &[u8], limit: usize, header: usize) -> Option<Joined> {
        let mut memory = pallet::MEMORY;
        let mut space = [0xEE; 110];
        let n = ask::send(&mut memory, request, limit, &mut space);
        let reply = first(&space, n);
        let status = *reply.get(2)?;
        self.join(status, reply.get(header..)?)
    }
}

/// The last entry's ID; an entry has an ID, its name's length, the name and a type.
fn last_id(entries: &[u8]) -> u32 {
    let mut rest = entries;
    let mut id = 0;
    while let Some(head) = rest.get(..8) {
        id = cip::u32_at(head, 0);
        let size = 8 + usize::from(cip::u16_at(head, 4));
        let Some(behind) = rest.get(size..) else {
            return id;
        };
        rest = behind;
    }
    id
}

/// What is asked for until a reply has status 0.
#[derive(Clone, Copy)]
enum Question {
    Rows,
    Symbols,
}

impl Question {
    /// Where the next request starts: a read at the bytes received, a page at the last ID plus one.
    fn next_start(self, received: &[u8]) -> u32 {
        match self {
            Question::Rows => u32::try_from(received.len()).unwrap_or(u32::MAX),
            Question::Symbols if received.is_empty() => 0,
            Question::Symbols => last_id(received).wrapping_add(1),
        }
    }

    /// 0x52 of all `Rows`, or 0x55 of the controller scope's names and types, from where the next request starts.
    fn ask(self, limit: usize, joined: Joined) -> Option<Joined> {
        let start = self.next_start(joined.bytes());
        match self {
            Question::Rows => {
                let mut request = *b"\x52\x03\x91\x04Rows\x0A\x00\x00\x00\x00\x00";
                cip::put_u32(&mut request, 10, start);
                joined.exchange(&request, limit, 6)
            }
            Question::Symbols => {
                let mut request =
                    *b"\x55\x04\x20\x6B\x26\x00\x00\x00\x00\x00\x02\x00\x01\x00\x02\x00";
                cip::put_u32(&mut request, 6, start);
                joined.exchange(&request, limit, 4)
            }
        }
    }

    /// Asks until a reply has status 0, at most 64 times; none where the exchange breaks off or does not end.
    fn join_all(self, limit: usize) -> Option<Joined> {
        let mut joined = Joined::new();
        for _ in 0..64 {
            joined = self.ask(limit, joined)?;
            if joined.ended {
                return Some(joined);
            }
        }
        None
    }
}

/// An exchange gives these bytes in this many replies; nothing in none where it breaks off.
fn compare<P: Print>(
    t: &mut Tally<P>,
    name: &str,
    got: Option<Joined>,
    expected: &[u8],
    replies: usize,
) -> io::Result<()> {
    let Some(joined) = got else {
        t.bytes(name, &[], expected)?;
        return t.replies(0, replies);
    };
    t.bytes(name, joined.bytes(), expected)?;
    t.replies(joined.replies, replies)
}

/// A continued read gives the bytes of `Rows` in tag memory, in this many replies.
fn read<P: Print>(t: &mut Tally<P>, name: &str, limit: usize, replies: usize) -> io::Result<()> {
    let memory = pallet::MEMORY;
    let joined = Question::Rows.join_all(limit);
    compare(t, name, joined, &memory[4..44], replies)
}

/// Continued pages give the entries of one page at a large limit, in this many replies.
fn page<P: Print>(t: &mut Tally<P>, name: &str, limit: usize, replies: usize) -> io::Result<()> {
    let whole = Question::Symbols.join_all(100);
    let expected = whole.as_ref().map_or(&[][..], Joined::bytes);
    compare(
        t,
        name,
        Question::Symbols.join_all(limit),
        expected,
        replies,
    )
}

pub fn reads<P: Print>(t: &mut Tally<P>) -> io::Result<()> {
    read(t, "Rows joined, limit 100", 100, 1)?;
    read(t, "Rows joined, limit 46", 46, 1)?;
    read(t, "Rows joined, limit 45", 45, 2)?;
    read(t, "Rows joined, limit 22", 22, 3)?;
    read(t, "Rows joined, limit 12", 12, 10)?;
    read(t, "Rows joined, limit 9", 9, 14)?;
    read(t, "Rows joined, limit 7", 7, 40)
}

pub fn pages<P: Print>(t: &mut Tally<P>) -> io::Result<()> {
    page(t, "symbols joined, limit 41", 41, 1)?;
    page(t, "symbols joined, limit 40", 40, 2)?;
    page(t, "symbols joined, limit 28", 28, 2)?;
    page(t, "symbols joined, limit 17", 17, 3)
}
