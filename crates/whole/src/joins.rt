// The replies to a continued read, joined one after the other.
ghost use Rattle.std.specs.Prelude.{◌≡◌, length};
ghost use Rattle.laws.specs.Put.{laid};
ghost use Rattle.definition.specs.Reply.{room};
ghost use Rattle.cip.specs.Writes.{Written};
ghost use Rattle.whole.specs.Parts.{chosen_in, selected_in, last_of, ReadTaken, ReadJoins};

use crate::asked::{Asked, Turn};
use crate::requests::Read;
use cip::replies::HEADER;
use model::Controller;

/// Reads until nothing more is due; returns how many bytes are joined. The last reply stays in `buf`.
pub fn join_all(
    c: &Controller,
    memory: &mut [u8],
    read: &Read,
    header: usize,
    limit: usize,
    buf: &mut [u8],
    out: &mut [u8],
) -> usize
    requires taken { ReadTaken c.now memory.old read.now limit (length buf.old) }
    requires joins { ReadJoins c.now memory.old read.now limit header (length out.old) }
    ensures joined { Written 0 (selected_in c.now memory.old read.now) out.old result out.new }
    ensures memory { memory.new ≡ memory.old }
    ensures buffer { buf.new ≡ laid (room limit) buf.old (last_of memory.old limit (chosen_in c.now read.now)) }
{
    let mut got = 0;
    loop {
        match read.join(c, memory, got as u32, HEADER + header, got, limit, buf, out) {
            Turn::More(n) => got = n,
            Turn::Last(n) => return n,
        }
    }
}
