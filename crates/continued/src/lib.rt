// Point 3 on whole lists of messages and other events, and document 02's rows of masked writes: the statements in specs/, their proofs in proofs/.
// The code is one function, for what the type of a slice adds to a statement.
#![tactic(auto)]

ghost use Rattle.definition.specs.Entry.{entry};
ghost use Rattle.model.specs.Tables.{tables_of, flags_of};
ghost use Rattle.logix.specs.Entering.{Enters};
ghost use Rattle.continued.specs.Clicks.{Rests};

use logix::entry::Refusal;
use model::Controller;

/// `message`, of which more is said: a masked write of zeros with all ones leaves tag memory as it was, since that holds bytes.
pub fn resting(
    c: &Controller,
    memory: &mut [u8],
    request: &[u8],
    limit: usize,
    buf: &mut [u8],
) -> Result<usize, Refusal>
    ensures enters { Enters (entry (tables_of c.now.tables) (flags_of c.now.flags) memory.old request.now limit buf.old)
        result buf.new memory.new }
    ensures rests { Rests (tables_of c.now.tables) (flags_of c.now.flags) request.now memory.old memory.new }
{
    logix::entry::message(c, memory, request, limit, buf)
}
