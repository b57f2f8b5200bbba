// A request that is sent again and again, each time from where the last reply ended: its way to the dispatcher, and what a reply brings.
ghost use Rattle.std.specs.Prelude.{◌≡◌, Bool, true, List, ℕ, ◌≤◌, length};
ghost use Rattle.laws.specs.Put.{laid};
ghost use Rattle.definition.specs.Reply.{room};
ghost use Rattle.definition.specs.Answer.{answer};
ghost use Rattle.cip.specs.Writes.{Written};
ghost use Rattle.model.specs.Tables.{tables_of, flags_of};
ghost use Rattle.services.specs.Answers.{Answers};
ghost use Rattle.whole.specs.Whole.{status_in};
ghost use Rattle.whole.specs.Asked.{Taken, ChangesNothing, Holds, Joined};

use crate::ReplyStatus;
use cip::replies;
use model::Controller;

/// The longest request is a page's, with a name of 255 bytes and a list of attributes of 1,024.
const LONGEST: usize = 1292;

/// How many bytes are received after a reply, and whether more are due. `ControlFlow` has this shape; its names say less.
#[derive(Clone, Copy)]
pub enum Turn {
    Last(usize),
    More(usize),
}

/// What is asked for from a place on: a read from an offset, or a page from an ID.
pub trait Asked {
    // Whether a request can carry it.
    ghost sendable: { Self → Bool };

    // The request's bytes.
    ghost request: { Self → (from : ℕ) → List ℕ };

    /// Writes the request from a place on; returns its length.
    fn put(&self, message: &mut [u8], from: u32) -> usize
        requires { (sendable self.now ≡ true) × (length (request self.now from) ≤ length message.old) }
        ensures written { Written 0 (request self.now from) message.old result message.new }
        ensures changes_nothing { ChangesNothing (request self.now from) };

    // A request that can be carried is not longer than the longest.
    ghost short: { (asked : Self) (from : ℕ) → sendable asked ≡ true → length (request asked from) ≤ 1292 };

    /// Sends the request from a place on; returns the reply's length.
    final fn send(
        &self,
        c: &Controller,
        memory: &mut [u8],
        from: u32,
        limit: usize,
        buf: &mut [u8],
    ) -> usize
        requires { Taken (sendable self.now) (tables_of c.now.tables) memory.old limit (length buf.old) }
        ensures answered { Answers limit (answer (tables_of c.now.tables) (flags_of c.now.flags) memory.old (request self.now from) limit)
            buf.old result buf.new memory.new }
        ensures memory { memory.new ≡ memory.old }
    {
        let mut message = [0u8; LONGEST];
        let n = self.put(&mut message, from);
        logix::dispatch(c, memory, &message[..n], limit, buf)
    }

    /// Sends the request from a place on, and joins what stands behind the reply's first bytes to as many bytes received.
    final fn join(
        &self,
        c: &Controller,
        memory: &mut [u8],
        from: u32,
        first: usize,
        got: usize,
        limit: usize,
        buf: &mut [u8],
        out: &mut [u8],
    ) -> Turn
        requires taken { Taken (sendable self.now) (tables_of c.now.tables) memory.old limit (length buf.old) }
        requires holds { Holds (answer (tables_of c.now.tables) (flags_of c.now.flags) memory.old (request self.now from) limit).reply
            first got (length out.old) }
        ensures joined { Joined (answer (tables_of c.now.tables) (flags_of c.now.flags) memory.old (request self.now from) limit).reply
            first got out.old result out.new }
        ensures memory { memory.new ≡ memory.old }
        ensures buffer { buf.new ≡ laid (room limit) buf.old
            (answer (tables_of c.now.tables) (flags_of c.now.flags) memory.old (request self.now from) limit).reply }
    {
        let n = self.send(c, memory, from, limit, buf);
        cip::copy_into(out, got, &buf[first..n]);
        let end = got + (n - first);
        if replies::is_success(buf) {
            return Turn::Last(end);
        }
        Turn::More(end)
    }

    /// The status of the reply from the start; the reply stays in `buf`.
    final fn first_status(
        &self,
        c: &Controller,
        memory: &mut [u8],
        limit: usize,
        buf: &mut [u8],
    ) -> ReplyStatus
        requires { Taken (sendable self.now) (tables_of c.now.tables) memory.old limit (length buf.old) }
        ensures status { result ≡ status_in
            (answer (tables_of c.now.tables) (flags_of c.now.flags) memory.old (request self.now 0) limit).reply }
        ensures memory { memory.new ≡ memory.old }
        ensures buffer { buf.new ≡ laid (room limit) buf.old
            (answer (tables_of c.now.tables) (flags_of c.now.flags) memory.old (request self.now 0) limit).reply }
    {
        self.send(c, memory, 0, limit, buf);
        ReplyStatus::of(buf)
    }
}
