// A request for a page of symbols, and the pages joined one after the other.
ghost use Rattle.std.specs.Prelude.{◌≡◌, ◌+◌, ◌≤◌, length};
ghost use Rattle.laws.specs.Put.{put, laid};
ghost use Rattle.definition.specs.Reply.{room};
ghost use Rattle.definition.specs.Page.{bytes_of, page_reply};
ghost use Rattle.cip.specs.Writes.{Written};
ghost use Rattle.model.specs.Tables.{tables_of};
ghost use Rattle.whole.specs.Lists.{scope_path, list_request, is_askable, longest, last_page};
ghost use Rattle.whole.specs.Turns.{ListTaken, ListGranted, due_on};

use crate::asked::{Asked, Turn};
use crate::walks;
use cip::codes::SYMBOL_PAGE;
use cip::replies::HEADER;
use listing::pages::{Page, Start};
use model::Controller;

/// A symbol segment.
const SYMBOL: u8 = 0x91;

/// The class of symbols, and the start of an instance segment of 32 bits.
const SYMBOLS_FROM: [u8; 4] = [0x20, 0x6B, 0x26, 0x00];

/// What is listed: the symbols of a program, or of the controller where the name is empty; of each the attributes of a list as a request
/// brings it.
#[derive(Clone, Copy)]
pub struct Listing<'a> {
    pub program: &'a [u8],
    pub attributes: &'a [u8],
}

/// The bytes of a path before its class.
fn scope_size(program: &[u8]) -> usize
    requires { length program.now ≤ 255 }
    ensures { (result ≡ length (scope_path program.now)) × (result ≤ 258) }
{
    if program.is_empty() {
        return 0;
    }
    2 + program.len() + program.len() % 2
}

/// A program's name as a symbol segment; nothing for the controller's scope.
#[tactic(auto, using(crate::proofs::Asking::size_named))]
fn put_scope(message: &mut [u8], program: &[u8])
    requires { (length program.now ≤ 255) × (2 + length (scope_path program.now) ≤ length message.old) }
    ensures { message.new ≡ put message.old 2 (scope_path program.now) }
{
    if program.is_empty() {
        return;
    }
    cip::put_u8(message, 2, SYMBOL);
    cip::put_u8(message, 3, program.len() as u8);
    cip::copy_into(message, 4, program);
    if program.len() % 2 == 1 {
        cip::put_u8(message, 4 + program.len(), 0);
    }
}

impl<'a> Listing<'a> {
    /// Whether a request can carry the name and the list of attributes.
    pub fn is_askable(&self) -> bool
        ensures { result ≡ is_askable self.now.program.now self.now.attributes.now }
    {
        self.program.len() <= 255 && self.attributes.len() <= 1024
    }
}

impl<'a> Asked for Listing<'a> {
    ghost use Rattle.whole.specs.Short.{short_list};

    ghost sendable = { λ listing. is_askable listing.program.now listing.attributes.now };

    ghost request = { λ listing id. list_request listing.program.now listing.attributes.now id };

    ghost short = { λ listing id can_send. short_list listing.program.now listing.attributes.now id can_send };

    #[tactic(auto, using(crate::specs::Short::lengths))]
    fn put(&self, message: &mut [u8], id: u32) -> usize {
        let n = scope_size(self.program);
        cip::put_u8(message, 0, SYMBOL_PAGE);
        cip::put_u8(message, 1, ((n + 8) / 2) as u8);
        put_scope(message, self.program);
        cip::copy_into(message, 2 + n, &SYMBOLS_FROM);
        cip::put_u32(message, 6 + n, id);
        cip::copy_into(message, 10 + n, self.attributes);
        10 + n + self.attributes.len()
    }
}

/// Asks for pages until nothing more is due; returns how many bytes are joined. The last reply stays in `buf`.
pub fn join_pages(
    c: &Controller,
    memory: &mut [u8],
    listing: &Listing,
    first: &Page,
    limit: usize,
    buf: &mut [u8],
    out: &mut [u8],
) -> usize
    requires { let entries = due_on (tables_of c.now.tables) first.now in
        ListTaken c.now memory.old listing.now limit (length buf.old) × ListGranted (tables_of c.now.tables) listing.now first.now
        × (4 + longest entries ≤ limit) × (length (bytes_of entries) ≤ length out.old) }
    ensures { let entries = due_on (tables_of c.now.tables) first.now in
        Written 0 (bytes_of entries) out.old result out.new × (memory.new ≡ memory.old)
        × (buf.new ≡ laid (room limit) buf.old (page_reply 0x55 (last_page limit entries) limit)) }
{
    let (scope, numbers) = (first.start.scope, first.numbers);
    let mut id = first.start.id;
    let mut got = 0;
    loop {
        let start = Start { scope, id };
        let page = Page { start, numbers };
        let end = match listing.join(c, memory, id, HEADER, got, limit, buf, out) {
            Turn::Last(end) => return end,
            Turn::More(end) => end,
        };
        let Some(next) = walks::next_start(&c.tables, &page, HEADER + (end - got), buf) else {
            return end;
        };
        id = next;
        got = end;
    }
}
