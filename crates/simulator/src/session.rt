// A session: the tables are judged once, then each line of standard input is answered.
// Tag memory stays a parameter: a struct of it could get other memory, of another length, and each contract would have to rule that out.
ghost use Rattle.std.specs.Prelude.{◌≡◌, ◌≤◌, true, length, IfOk, IfSome};
ghost use Rattle.definition.specs.Valid.{valid};
ghost use Rattle.model.specs.Tables.{tables_of};

use crate::run::Run;
use cip::codes::MOST;
use console::{lines, reply};
use input::hex;
use input::lines::Cursor;
use model::{Controller, Tables};
use std::io;
use std::io::Read;

/// A request's bytes and its reply's. Their lengths are of the type, so no contract speaks of them.
#[derive(Drop)]
struct Buffers {
    request: [u8; MOST],
    reply: [u8; MOST],
}

/// Where replies go, the controller that answers, and whether a reply has its line's number before it.
#[derive(Drop)]
struct Session<'a, P: Print> {
    to: &'a P,
    c: &'a Controller<'a>,
    numbers: bool,
}

impl<'a, P: Print> Session<'a, P> {
    /// Answers a request and shows the reply, behind the line's number where that is asked for.
    fn respond(
        &self,
        memory: &mut [u8],
        request: &[u8],
        limit: usize,
        buf: &mut [u8; MOST],
        number: Option<u64>,
    ) -> io::Result<()>
        requires request { length request.now ≤ 65535 }
        requires limit { limit ≤ 65535 }
        requires judged { valid (tables_of self.now.c.now.tables) (length memory.old) ≡ true }
    {
        let n = logix::entry::answer(self.c, memory, request, limit, buf);
        reply::show(self.to, &buf[..n], number)
    }

    /// Answers a line.
    fn serve_line(
        &self,
        memory: &mut [u8],
        line: &[u8],
        number: u64,
        buffers: &mut Buffers,
    ) -> io::Result<()>
        requires judged { valid (tables_of self.now.c.now.tables) (length memory.old) ≡ true }
    {
        let Buffers { request, reply } = buffers;
        match hex::parse(line, request) {
            Ok(None) => Ok(()),
            Ok(Some(asked)) => {
                let shown = self.numbers.then_some(number);
                self.respond(memory, &request[..asked.len], asked.limit, reply, shown)
            }
            Err(fault) => lines::complain(self.to, number, fault),
        }
    }

    /// Answers each whole line of the input, but for the rest of one that was too long; what is left starts at the place's position.
    fn serve_lines(
        &self,
        memory: &mut [u8],
        input: &[u8],
        buffers: &mut Buffers,
        place: Cursor,
    ) -> io::Result<Cursor>
        requires judged { valid (tables_of self.now.c.now.tables) (length memory.old) ≡ true }
        ensures { IfOk result (λ next. next.at ≤ length input.now) }
    {
        let mut next = Cursor { at: 0, ..place };
        while let Some(len) = input::lines::find(&input[next.at..], b'\n') {
            let end = next.at + len;
            if !next.skipping {
                self.serve_line(memory, &input[next.at..end], next.line, buffers)?;
            }
            next = Cursor {
                at: end + 1,
                line: next.line.wrapping_add(1),
                skipping: false,
            };
        }
        Ok(next)
    }

    /// Reads once more and answers the lines that are whole; none where the input has ended.
    fn turn(
        &self,
        from: &mut impl Read,
        memory: &mut [u8],
        input: &mut [u8],
        buffers: &mut Buffers,
        place: Cursor,
    ) -> io::Result<Option<Cursor>>
        requires inside { place.at ≤ length input.old }
        requires judged { valid (tables_of self.now.c.now.tables) (length memory.old) ≡ true }
        ensures { IfOk result (λ o. IfSome o (λ next. next.at ≤ length input.old)) }
    {
        if place.at >= input.len() {
            return Ok(Some(lines::overflow(self.to, place)?));
        }
        let Some(end) = lines::read_more(from, input, place.at)? else {
            return Ok(None);
        };
        let next = self.serve_lines(memory, &input[..end], buffers, place)?;
        Ok(Some(next.shift(input, end)))
    }

    /// Answers standard input to its end. No run uses up the count of turns.
    fn serve(&self, from: &mut impl Read, memory: &mut [u8]) -> io::Result<()>
        requires { valid (tables_of self.now.c.now.tables) (length memory.old) ≡ true }
    {
        let mut input = [0u8; lines::ROOM];
        let mut buffers = Buffers {
            request: [0; MOST],
            reply: [0; MOST],
        };
        let mut place = Cursor::first();
        for _ in 0..u64::MAX {
            match self.turn(from, memory, &mut input, &mut buffers, place)? {
                Some(next) => place = next,
                None => return Ok(()),
            }
        }
        Ok(())
    }
}

/// Whether the tables are valid for this tag memory; if not, it is said what they break.
#[tactic(auto, using(crate::proofs::Judged::none_valid))]
fn judged(err: &impl Print, t: &Tables, memory: &[u8]) -> io::Result<bool>
    ensures { IfOk result (λ is_valid. is_valid ≡ true → valid (tables_of t.now) (length memory.now) ≡ true) }
{
    match tables::breach(t, memory) {
        None => Ok(true),
        Some(breach) => {
            print!(err; "the tables are not valid: ")?;
            wording::say(err, breach, t)?;
            Ok(false)
        }
    }
}

impl<'a, R: Read, T: Print, E: Print> Run<'a, R, T, E> {
    /// Does with the tables what the options ask: lists them and says what they break, or judges them for this tag memory and then serves them.
    pub fn open(self, c: &Controller, memory: &mut [u8]) -> io::Result<()> {
        let Run {
            from,
            to,
            err,
            options,
        } = self;
        if options.tables {
            shown::show(to, &c.tables, memory)?;
        }
        if !judged(err, &c.tables, memory)? || options.tables {
            return Ok(());
        }
        let session = Session {
            to,
            c,
            numbers: options.numbers,
        };
        session.serve(from, memory)
    }
}
