// Attribute lists of a structure (class 0x6C) and of a symbol (class 0x6B).
ghost use Rattle.std.specs.Prelude.{◌≡◌, ◌+◌, ◌/◌, ◌≤◌, length};
ghost use Rattle.laws.specs.Put.{put};
ghost use Rattle.definition.specs.Bytes.{counted};
ghost use Rattle.definition.specs.Reply.{room};
ghost use Rattle.definition.specs.Lookup.{program_of};
ghost use Rattle.definition.specs.Attributes.{attribute_entry, attribute_entries, list_reply, structure_attribute, structure_attributes, symbol_attributes};
ghost use Rattle.definition.specs.Answer.{capped};
ghost use Rattle.cip.specs.Writes.{Written, Laid};
ghost use Rattle.model.specs.Tables.{tables_of, Whatever};
ghost use Rattle.listing.specs.Numbers.{numbers_in};
ghost use Rattle.listing.specs.Objects.{attributes_lent, bytes_of, object_value};

use crate::numbers::Numbers;
use crate::symbols;
use crate::values::Value;
use cip::{Status, replies};
use model::columns::{
    CONTROLLER_SCOPE, STRUCTURE_HANDLE, STRUCTURE_MEMBERS, STRUCTURE_SIZE, TEMPLATE_LENGTH,
};
use model::{Tables, lookup};

/// The status word of a known attribute.
const KNOWN: u16 = 0x0000;

/// The status word of an unknown attribute.
const UNKNOWN: u16 = 0x0014;

/// Where a reply's entries start: behind its header and their count.
const ENTRIES: usize = replies::HEADER + 2;

// A structure's attributes, as numbers for the reason that `numbers` gives.
const HANDLE: u16 = 1;

const MEMBERS: u16 = 2;

const WORDS: u16 = 4;

const SIZE: u16 = 5;

/// The attribute of a symbol that is named as a program.
const PROGRAM: u16 = 0x0D;

/// A program's instance is this plus its position.
const FIRST_PROGRAM: u16 = 0x5AD0;

/// What attributes are asked of.
#[derive(Clone, Copy)]
enum Object<'a> {
    /// A structure, by its row.
    Structure(&'a [u32; 10]),
    /// A symbol, by the position of the program that it is named as.
    Symbol(Option<usize>),
}

impl<'a> Object<'a> {
    /// An attribute; none where it is unknown.
    fn value(&self, number: u16) -> Option<Value<'a>>
        ensures { bytes_of result ≡ object_value self.now number }
    {
        match *self {
            Object::Structure(row) => structure_value(row, number),
            Object::Symbol(Some(program)) if number == PROGRAM => {
                let instance = FIRST_PROGRAM.wrapping_add(cip::low16(program));
                Some(Value::Reference(instance))
            }
            _ => None,
        }
    }

    /// The bytes of an entry of the reply.
    #[tactic(auto, using(crate::proofs::Objects::value_short))]
    fn entry_size(&self, number: u16) -> usize
        ensures size { result ≡ length (attribute_entry number (object_value self.now number)) }
        ensures small { result ≤ 16 }
    {
        match self.value(number) {
            Some(value) => 4 + value.size(),
            None => 4,
        }
    }

    /// An entry of the reply: the number, its status and its value.
    fn put_entry(&self, number: u16, buf: &mut [u8], at: usize) -> usize
        requires { at + length (attribute_entry number (object_value self.now number)) ≤ length buf.old }
        ensures { Written at (attribute_entry number (object_value self.now number)) buf.old result buf.new }
    {
        cip::put_u16(buf, at, number);
        let Some(value) = self.value(number) else {
            cip::put_u16(buf, at + 2, UNKNOWN);
            return 4;
        };
        cip::put_u16(buf, at + 2, KNOWN);
        4 + value.put(buf, at + 4)
    }

    /// The bytes of all entries.
    fn entries_size(&self, numbers: &Numbers) -> usize
        ensures size { result ≡ length (attribute_entries (object_value self.now) (numbers_in numbers.now)) }
        ensures small { result ≤ 1048560 }
    {
        numbers
            .pairs
            .iter()
            .map(|pair| self.entry_size(u16::from_le_bytes(*pair)))
            .sum()
    }

    /// All entries, which fit; returns where they end.
    fn put_entries(&self, numbers: &Numbers, buf: &mut [u8], at: usize) -> usize
        requires { at + length (attribute_entries (object_value self.now) (numbers_in numbers.now)) ≤ length buf.old }
        ensures end { result ≡ at + length (attribute_entries (object_value self.now) (numbers_in numbers.now)) }
        ensures bytes { buf.new ≡ put buf.old at (attribute_entries (object_value self.now) (numbers_in numbers.now)) }
    {
        // A symbol's `put_attributes` has a loop of this shape: a trait for both would be longer than the loops.
        let mut used = at;
        for pair in numbers.pairs {
            used += self.put_entry(u16::from_le_bytes(*pair), buf, used);
        }
        used
    }

    /// The attributes that a body asks for; 0x11 instead of a reply that exceeds the limit.
    fn answer(&self, service: u8, body: &[u8], limit: usize, buf: &mut [u8]) -> usize
        requires { room limit ≤ length buf.old }
        ensures { Laid limit (capped service limit (list_reply service (object_value self.now) (counted body.now))) buf.old result buf.new }
    {
        let Some(numbers) = Numbers::read(body) else {
            return replies::refuse(service, Status::TooShort, limit, buf);
        };
        if limit < ENTRIES + self.entries_size(&numbers) {
            return cip::fail(buf, limit, service, Status::TooLarge);
        }
        cip::put_header(buf, service, Status::Success);
        cip::put_u16(buf, replies::HEADER, cip::low16(numbers.pairs.len()));
        let used = self.put_entries(&numbers, buf, ENTRIES);
        cip::finish(buf, limit, used)
    }
}

#[tactic(auto, using(crate::proofs::Objects::values), unfolding(definition::specs::Attributes::structure_attribute))]
fn structure_value<'a>(row: &'a [u32; 10], number: u16) -> Option<Value<'a>>
    ensures { bytes_of result ≡ structure_attribute row.now number }
{
    match number {
        HANDLE => Some(Value::Short(cip::low16(row[STRUCTURE_HANDLE] as usize))),
        MEMBERS => Some(Value::Short(cip::low16(row[STRUCTURE_MEMBERS] as usize))),
        WORDS => Some(Value::Long(words_of(row[TEMPLATE_LENGTH]))),
        SIZE => Some(Value::Long(row[STRUCTURE_SIZE])),
        _ => None,
    }
}

/// The words of a template and its head, rounded up.
fn words_of(size: u32) -> u32
    ensures { result ≡ (size + 23 + 3) / 4 }
{
    (u64::from(size) + 23).div_ceil(4) as u32
}

/// The attributes of the structure that a template ID means; 0x05 for an unknown one.
#[tactic(auto, using(crate::proofs::Found::template_inside))]
pub fn structure_attributes(
    t: &Tables,
    service: u8,
    id: u32,
    body: &[u8],
    limit: usize,
    buf: &mut [u8],
) -> usize
    requires { room limit ≤ length buf.old }
    ensures { Laid limit (capped service limit (structure_attributes (tables_of t.now).structures service id body.now)) buf.old result buf.new }
{
    match t.find_template(id) {
        Some(i) => Object::Structure(&t.structures[i]).answer(service, body, limit, buf),
        None => replies::refuse(service, Status::PathUnknown, limit, buf),
    }
}

/// The program that a name with the prefix means.
#[tactic(auto, unfolding(definition::specs::Lookup::program_of))]
pub fn program_of(t: &Tables, name: &[u8]) -> Option<usize>
    ensures { result ≡ program_of (tables_of t.now) name.now }
{
    t.find_program(path::after_program(name)?)
}

/// The attributes of a symbol of the controller scope; 0x05 for an unknown one. Only a symbol that is no tag may be named as a program.
#[tactic(auto, using(crate::proofs::Found::id_inside))]
pub fn symbol_attributes(
    t: &Tables,
    service: u8,
    id: u32,
    body: &[u8],
    limit: usize,
    buf: &mut [u8],
) -> usize
    requires { room limit ≤ length buf.old }
    ensures { Whatever (attributes_lent (tables_of t.now))
        (λ t. Laid limit (capped service limit (symbol_attributes t service id body.now)) buf.old result buf.new) }
{
    if let Some(i) = lookup::find_id(t.others, CONTROLLER_SCOPE, id) {
        let name = symbols::other_name(t, &t.others[i]);
        return Object::Symbol(program_of(t, name)).answer(service, body, limit, buf);
    }
    if lookup::find_id(t.tags, CONTROLLER_SCOPE, id).is_none() {
        return replies::refuse(service, Status::PathUnknown, limit, buf);
    }
    Object::Symbol(None).answer(service, body, limit, buf)
}
