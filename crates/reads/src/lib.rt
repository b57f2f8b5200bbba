// Reads of a resolved target in tag memory: the fields of a request, plain (0x4C) or fragmented (0x52), and one read for both: whether it is granted, how
// much of what is due fits, and the reply.
#![tactic(auto)]

pub mod bits;

ghost use Rattle.std.specs.Prelude.{◌≡◌, false, [], ◌++◌, ◌+◌, ◌≤◌, length};
ghost use Rattle.definition.specs.Reply.{reply, general, room};
ghost use Rattle.definition.specs.Types.{type_header};
ghost use Rattle.definition.specs.Fragment.{space, rounded, size_of, status_of as fragmentStatus, fragment_reply};
ghost use Rattle.definition.specs.Read.{granted, selection, send_from, send, read_at, read_fields};
ghost use Rattle.cip.specs.Statuses.{status_of, has_word};
ghost use Rattle.cip.specs.Writes.{Written, Laid};
ghost use Rattle.model.specs.Tables.{target_of, Aimed};
ghost use Rattle.definition.specs.Bytes.{part};
ghost use Rattle.reads.specs.Reading.{stored, fields_as, grant_of, header_size};

use cip::Status;
use cip::codes::READ_FRAGMENTED;
use model::columns::NO_BIT;
use model::types::FIRST_STRUCTURE;
use model::{Tables, Target};

/// What a read is asked for: so many elements, from an offset into them on.
#[derive(Clone, Copy)]
pub struct ReadFields {
    pub elements: usize,
    pub offset: usize,
}

/// What a read's data says, unless some of it is missing: 0x4C brings an element count and has offset 0, 0x52 an offset behind the count. What
/// follows is ignored.
#[tactic(auto, using(laws::proofs::Chain::chain), unfolding(definition::specs::Read::read_fields))]
pub fn read_fields(service: u8, body: &[u8]) -> Option<ReadFields>
    ensures { fields_as result ≡ read_fields service body.now }
{
    let elements = usize::from(cip::u16_at(body.get(..2)?, 0));
    if service != READ_FRAGMENTED {
        return Some(ReadFields {
            elements,
            offset: 0,
        });
    }
    let offset = cip::u32_at(body.get(2..6)?, 0) as usize;
    Some(ReadFields { elements, offset })
}

/// The two stores that a fragment may come from.
#[derive(Clone, Copy)]
pub enum Store {
    Templates,
    Memory,
}

/// A part of one of two stores, whichever holds it: template text, or tag memory.
pub fn chunk<'a>(
    templates: &'a [u8],
    memory: &'a [u8],
    store: Store,
    at: usize,
    n: usize,
) -> &'a [u8]
    requires { at + n ≤ length (stored store templates.now memory.now) }
    ensures { result.now ≡ part (stored store templates.now memory.now) at n }
{
    let bytes = match store {
        Store::Templates => templates,
        Store::Memory => memory,
    };
    &bytes[at..at + n]
}

/// What a read's refusals say, in order: a bit is one element, no elements, more than there are.
pub fn ask_of(g: Target, elements: usize) -> Result<(), Status>
    ensures { result ≡ grant_of g.bit g.count elements }
{
    if g.bit != NO_BIT {
        if elements == 1 {
            return Ok(());
        }
        return Err(Status::BeyondEnd);
    }
    if elements == 0 {
        return Err(Status::NoElements);
    }
    if g.count < elements {
        return Err(Status::BeyondEnd);
    }
    Ok(())
}

/// The length of a type header.
pub fn header_size(ty: u32) -> usize
    ensures { result ≡ header_size ty }
{
    if ty < FIRST_STRUCTURE { 2 } else { 4 }
}

/// The room that a type header of h bytes leaves for data.
fn space_of(h: usize, limit: usize) -> usize
    ensures { result ≡ space h limit }
{
    cip::replies::space_of(limit).saturating_sub(h)
}

/// Rounded down to a multiple of 4, if that is not 0.
#[tactic(auto, using(laws::proofs::Chain::chain), unfolding(definition::specs::Fragment::rounded))]
fn rounded_of(s: usize) -> usize
    ensures { result ≡ rounded s }
{
    if s < 4 { s } else { s / 4 * 4 }
}

/// How many of the bytes due are sent: only a cut is rounded, the last chunk is sent whole.
#[tactic(auto, using(laws::proofs::Chain::chain), unfolding(definition::specs::Fragment::size_of))]
fn size_of(due: usize, s: usize) -> usize
    ensures { result ≡ size_of due s }
{
    if due <= s { due } else { rounded_of(s) }
}

#[tactic(auto, using(laws::proofs::Chain::chain), unfolding(definition::specs::Fragment::status_of))]
fn status_of(due: usize, s: usize) -> Status
    ensures { status_of result ≡ general (fragmentStatus due s) }
{
    if due <= s {
        Status::Success
    } else {
        Status::Partial
    }
}

/// What the reply to a read begins with: the service that it answers, and the type of its data among the structures.
#[derive(Clone, Copy)]
struct Head<'a> {
    service: u8,
    structures: &'a [[u32; 10]],
    ty: u32,
}

impl<'a> Head<'a> {
    /// A reply's header, the type header and the data; returns their length.
    #[tactic(auto, using(crate::proofs::Reading::headers))]
    fn put(&self, buf: &mut [u8], status: Status, bytes: &[u8]) -> usize
        requires { (has_word (status_of status) ≡ false) × (8 ≤ length buf.old) × (4 + header_size self.now.ty + length bytes.now ≤ length buf.old) }
        ensures { Written 0 (reply self.now.service (status_of status) (type_header self.now.structures.now self.now.ty ++ bytes.now)) buf.old result
            buf.new }
    {
        let used = cip::put_header(buf, self.service, status);
        let behind = used + model::types::put_type_header(buf, used, self.structures, self.ty);
        cip::copy_into(buf, behind, bytes);
        behind + bytes.len()
    }

    /// Sends as many bytes of a chunk as fit.
    fn send_chunk(&self, chunk: &[u8], limit: usize, buf: &mut [u8]) -> usize
        requires { room limit ≤ length buf.old }
        ensures { Laid limit (fragment_reply self.now.service (type_header self.now.structures.now self.now.ty) chunk.now limit) buf.old result
            buf.new }
    {
        let due = chunk.len();
        let s = space_of(header_size(self.ty), limit);
        let bytes = &chunk[..size_of(due, s)];
        let used = self.put(buf, status_of(due, s), bytes);
        cip::finish(buf, limit, used)
    }

    /// Sends the bytes of a value from an offset on; the offset is checked last.
    #[tactic(auto, using(laws::proofs::Chain::chain), unfolding(definition::specs::Read::send_from))]
    fn send_from(&self, value: &[u8], offset: usize, limit: usize, buf: &mut [u8]) -> usize
        requires { room limit ≤ length buf.old }
        ensures { Laid limit (send_from self.now.service (type_header self.now.structures.now self.now.ty) value.now offset limit) buf.old result
            buf.new }
    {
        if value.len() <= offset {
            return cip::fail(buf, limit, self.service, Status::BeyondEnd);
        }
        self.send_chunk(&value[offset..], limit, buf)
    }
}

/// Sends what a granted read selects: a bit as one BOOL byte, else so many elements.
fn send_selected(
    t: &Tables,
    memory: &[u8],
    service: u8,
    g: Target,
    fields: ReadFields,
    limit: usize,
    buf: &mut [u8],
) -> usize
    requires { Aimed t.now.structures.now (length memory.now) g × (fields.elements ≤ g.count) × (room limit ≤ length buf.old) }
    ensures { Laid limit (send service (granted (selection t.now.structures.now (target_of g []) fields.elements))
        memory.now fields.offset limit) buf.old result buf.new }
{
    let head = Head {
        service,
        structures: t.structures,
        ty: g.ty,
    };
    let start = g.start;
    if g.bit != NO_BIT {
        let value = [bits::bit_of(memory[start], g.bit)];
        return head.send_from(&value, fields.offset, limit, buf);
    }
    let size = fields.elements * g.size;
    let value = chunk(t.templates, memory, Store::Memory, start, size);
    head.send_from(value, fields.offset, limit, buf)
}

/// One read of a resolved target, whoever decoded it; returns the reply's length.
pub fn read(
    t: &Tables,
    memory: &[u8],
    service: u8,
    g: Target,
    fields: ReadFields,
    limit: usize,
    buf: &mut [u8],
) -> usize
    requires { Aimed t.now.structures.now (length memory.now) g × (room limit ≤ length buf.old) }
    ensures { Laid limit (read_at t.now.structures.now memory.now service (target_of g []) fields.elements fields.offset limit)
        buf.old result buf.new }
{
    match ask_of(g, fields.elements) {
        Ok(()) => send_selected(t, memory, service, g, fields, limit, buf),
        Err(status) => cip::fail(buf, limit, service, status),
    }
}
