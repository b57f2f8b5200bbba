// Writes, plain (0x4D) and fragmented (0x53): the fields, a bit, a value. A write that is refused stores nothing.
ghost use Rattle.std.specs.Prelude.{◌≡◌, [], ◌+◌, ◌≤◌, length};
ghost use Rattle.definition.specs.Write.{offset_size, type_size, type_matches, write_part, write_value, write_stored};
ghost use Rattle.model.specs.Tables.{target_of, Aimed};
ghost use Rattle.writes.specs.Storing.{Stores, fields_as, fields_in, fields_found, write_offset, service_of, BringsOffset};

use cip::Status;
use cip::codes::{STRUCTURE_CODE, WRITE_FRAGMENTED};
use model::columns::{NO_BIT, STRUCTURE_HANDLE};
use model::types::{FIRST_STRUCTURE, structure_word};
use model::{Tables, Target};

/// A write's fields: a type and the handle of a structure's, a count of elements, an offset where the service brings one, and the value behind
/// them.
#[derive(Clone, Copy)]
pub struct Fields<'a> {
    pub ty: u32,
    // the word behind the type, whatever the type is: so the definition's fields have it, which says of it only where a structure's value is meant
    pub handle: u32,
    pub elements: usize,
    pub offset: Option<usize>,
    pub value: &'a [u8],
}

/// The bytes of type and handle.
fn type_size(body: &[u8]) -> usize
    requires { 2 ≤ length body.now }
    ensures { result ≡ type_size body.now }
{
    if u32::from(cip::u16_at(body, 0)) == STRUCTURE_CODE {
        4
    } else {
        2
    }
}

fn offset_size(service: u8) -> usize
    ensures { result ≡ offset_size service }
{
    if service == WRITE_FRAGMENTED { 4 } else { 0 }
}

/// A write's offset, where it brings one.
fn offset_at(service: u8, body: &[u8], at: usize) -> Option<usize>
    requires { at + offset_size service ≤ length body.now }
    ensures { result ≡ write_offset service body.now at }
{
    if service != WRITE_FRAGMENTED {
        return None;
    }
    Some(cip::u32_at(body, at) as usize)
}

/// A write's fields, unless some of them are missing.
fn fields_of(service: u8, body: &[u8]) -> Option<Fields<'_>>
    ensures fields { fields_found result ≡ fields_in service body.now }
    ensures offset { BringsOffset service result }
{
    if body.len() < 2 {
        return None;
    }
    let at = type_size(body);
    let value = body.get(at + 2 + offset_size(service)..)?;
    Some(Fields {
        ty: u32::from(cip::u16_at(body, 0)),
        handle: u32::from(cip::u16_at(body, 2)),
        elements: usize::from(cip::u16_at(body, at)),
        offset: offset_at(service, body, at + 2),
        value,
    })
}

/// Whether a write brings the target's type: its code, or 0x02A0 with its structure's handle.
#[tactic(auto, using(laws::proofs::Chain::chain), unfolding(definition::specs::Write::type_matches))]
fn type_matches(t: &Tables, g: Target, w: &Fields) -> bool
    ensures { result ≡ type_matches t.now.structures.now (target_of g []) (fields_as w.now) }
{
    if g.ty < FIRST_STRUCTURE {
        return w.ty == g.ty;
    }
    w.ty == STRUCTURE_CODE && w.handle == structure_word(t.structures, g.ty, STRUCTURE_HANDLE)
}

/// Stores the value: without an offset all of it, else a part of it from the offset.
#[tactic(auto, using(crate::proofs::Storing::stores), unfolding(definition::specs::Write::write_part))]
fn write_part(memory: &mut [u8], g: Target, w: &Fields, total: usize) -> Result<(), Status>
    requires { g.start + total ≤ length memory.old }
    ensures { Stores (write_part (service_of w.now.offset) (target_of g []) (fields_as w.now) total) memory.old result memory.new }
{
    let size = w.value.len();
    match w.offset {
        Some(offset) if total <= offset => Err(Status::BeyondEnd),
        Some(offset) if total < offset + size => Err(Status::TooLong),
        Some(offset) => {
            cip::copy_into(memory, g.start + offset, w.value);
            Ok(())
        }
        None if size < total => Err(Status::TooShort),
        None if total < size => Err(Status::TooLong),
        None => {
            cip::copy_into(memory, g.start, w.value);
            Ok(())
        }
    }
}

#[tactic(auto, using(crate::proofs::Storing::stores), unfolding(definition::specs::Write::write_value))]
fn write_value(t: &Tables, memory: &mut [u8], g: Target, w: &Fields) -> Result<(), Status>
    requires { Aimed t.now.structures.now (length memory.old) g }
    ensures { Stores (write_value t.now.structures.now (service_of w.now.offset) (target_of g []) (fields_as w.now)) memory.old
        result memory.new }
{
    if !type_matches(t, g, w) {
        return Err(Status::WrongType);
    }
    if w.elements == 0 {
        return Err(Status::NoElements);
    }
    if g.count < w.elements {
        return Err(Status::BeyondEnd);
    }
    write_part(memory, g, w, w.elements * g.size)
}

/// A write to a resolved target; an error says why nothing was stored.
pub fn write(
    t: &Tables,
    memory: &mut [u8],
    service: u8,
    g: Target,
    body: &[u8],
) -> Result<(), Status>
    requires { Aimed t.now.structures.now (length memory.old) g }
    ensures { Stores (write_stored t.now.structures.now memory.old service (target_of g []) body.now)
        memory.old result memory.new }
{
    let w = fields_of(service, body).ok_or(Status::TooShort)?;
    if g.bit != NO_BIT {
        return crate::bits::write_bit(memory, g, &w);
    }
    write_value(t, memory, g, &w)
}
