// The controller of document 01's pallet bench with tags that a caller lends: a reply by its length, and compared.
ghost use Rattle.std.specs.Prelude.{◌≡◌};
ghost use Rattle.definition.specs.Entry.{entry as entry_of};
ghost use Rattle.definition.specs.Pallet.{pallet_flags};
ghost use Rattle.pallet.specs.Lent.{with_tags};
ghost use Rattle.bench.specs.Sent.{length_in, Sends};

use crate::tally;
use crate::tally::Tally;
use logix::entry::Refusal;
use std::io;

/// A reply's length; a request that gets none has no bytes.
pub fn length_of(reply: Result<usize, Refusal>) -> usize
    ensures { result ≡ length_in reply }
{
    reply.unwrap_or(0)
}

/// Answers a request: the reply's length.
pub fn send(
    tags: &[[u32; 12]],
    tag_names: &[u8],
    memory: &mut [u8],
    request: &[u8],
    limit: usize,
    buf: &mut [u8],
) -> usize
    ensures { Sends (entry_of (with_tags tags.now tag_names.now) pallet_flags memory.old request.now
        limit buf.old) result buf.new memory.new }
{
    length_of(pallet::with_tags(tags, tag_names, memory, request, limit, buf))
}

/// A line of a bench: how it is called, a request with its reply's limit, and the reply that is expected.
#[derive(Clone, Copy)]
pub struct Example<'a> {
    pub name: &'a str,
    pub request: &'a [u8],
    pub limit: usize,
    pub expected: &'a [u8],
}

/// The tags of a bench, and their names.
#[derive(Clone, Copy)]
pub struct Tags<'a> {
    pub rows: &'a [[u32; 12]],
    pub names: &'a [u8],
}

impl<'a> Tags<'a> {
    /// Sends a request and compares its reply.
    pub fn compare<P: Print>(
        self,
        t: &mut Tally<P>,
        memory: &mut [u8],
        line: Example,
    ) -> io::Result<()> {
        let mut buf = [0xEE; 110];
        let n = send(
            self.rows,
            self.names,
            memory,
            line.request,
            line.limit,
            &mut buf,
        );
        t.bytes(line.name, tally::first(&buf, n), line.expected)
    }
}
