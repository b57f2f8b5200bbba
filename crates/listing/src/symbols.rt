// The symbols that a page lists: table rows made symbols, and a symbol's entry, its ID and then the listed attributes.
ghost use Rattle.std.specs.Prelude.{◌≡◌, ◌+◌, ◌*◌, ◌%◌, ◌≤◌, length, map};
ghost use Rattle.laws.specs.Pick.{pick};
ghost use Rattle.laws.specs.Put.{put};
ghost use Rattle.definition.specs.Tables.{other_name};
ghost use Rattle.definition.specs.Lookup.{marked};
ghost use Rattle.definition.specs.Symbols.{symbol_attribute, attributes_of, base_tag, tag_symbol, other_symbol};
ghost use Rattle.model.specs.Tables.{tables_of, Whatever};
ghost use Rattle.listing.specs.Numbers.{word, numbers_in};
ghost use Rattle.listing.specs.Values.{value_bytes};

use crate::numbers::{ADDRESS, CONTROL, LENGTHS, NAME, Numbers, OBJECT_ADDRESS, SIZE, TYPE};
use crate::values::Value;
use model::columns::{
    OTHER_ID, OTHER_NAME_LENGTH, OTHER_NAME_START, OTHER_TYPE, TAG_ACCESS, TAG_ALIAS, TAG_ID,
    TAG_NAME_LENGTH, TAG_NAME_START, TAG_TYPE,
};
use model::{Tables, lookup, shapes, types};

/// A symbol's attributes, as a page sends them.
#[derive(Clone, Copy)]
pub struct Symbol<'a> {
    pub id: u32,
    pub name: &'a [u8],
    // words that go into replies as they are
    pub kind: u32,
    pub control: u32,
    pub size: u32,
    pub lengths: [u32; 3],
    pub access: u8,
}

impl<'a> Symbol<'a> {
    ghost use Rattle.listing.specs.Entries.{tag_lent, other_lent, made, ListableRow};

    /// A tag, whose access is at most 3 and which has elements, as where the tables are valid. A row has the length of its name in 32 bits.
    pub fn of_tag(t: &Tables<'a>, row: &[u32; 12]) -> Symbol<'a>
        requires { ListableRow row.now }
        ensures symbol { Whatever (tag_lent (tables_of t.now)) (λ o. made result ≡ tag_symbol o row.now) }
        ensures short { length result.name.now ≤ 4294967295 }
    {
        let dims = shapes::count_lengths(shapes::lengths_of(row));
        let [listed, _] = shapes::shapes(row);
        Symbol {
            id: row[TAG_ID],
            name: lookup::part_of(t.tag_names, row[TAG_NAME_START], row[TAG_NAME_LENGTH]),
            kind: types::symbol_type(t.structures, row[TAG_TYPE], dims as u32),
            control: control_of(row[TAG_ALIAS]),
            size: t.element_size(row[TAG_TYPE]),
            lengths: listed,
            access: row[TAG_ACCESS] as u8,
        }
    }

    #[tactic(auto, unfolding(definition::specs::Symbols::other_symbol))]
    pub fn of_other(t: &Tables<'a>, row: &[u32; 5]) -> Symbol<'a>
        ensures symbol { Whatever (other_lent (tables_of t.now)) (λ o. made result ≡ other_symbol o row.now) }
        ensures short { length result.name.now ≤ 4294967295 }
    {
        Symbol {
            id: row[OTHER_ID],
            name: other_name(t, row),
            kind: row[OTHER_TYPE],
            control: 0,
            size: 0,
            lengths: [0, 0, 0],
            access: 0,
        }
    }

    /// An attribute's value.
    #[tactic(auto, using(crate::proofs::Made::values), unfolding(definition::specs::Symbols::symbol_attribute))]
    fn value(&self, number: u16) -> Value<'a>
        ensures { value_bytes result ≡ symbol_attribute (made self.now) number }
    {
        match number {
            NAME => Value::Name(self.name),
            TYPE => Value::Short(cip::low16(self.kind as usize)),
            ADDRESS => Value::Long(address_of(self.id, 0x100, 0x100000)),
            OBJECT_ADDRESS => Value::Long(address_of(self.id, 0x40, 0x2000)),
            CONTROL => Value::Long(self.control),
            SIZE => Value::Short(cip::low16(self.size as usize)),
            LENGTHS => Value::Lengths(self.lengths),
            // `ACCESS`, since a page knows no other
            _ => Value::Byte(self.access),
        }
    }

    /// The bytes of an attribute's value.
    #[tactic(auto, using(crate::proofs::Made::attribute_short))]
    fn attribute_size(&self, number: u16) -> usize
        requires { length self.now.name.now ≤ 4294967295 }
        ensures { result ≡ length (symbol_attribute (made self.now) number) }
    {
        self.value(number).size()
    }

    /// The bytes of the entry: its ID has four.
    pub fn entry_size(&self, numbers: &Numbers) -> usize
        requires { length self.now.name.now ≤ 4294967295 }
        ensures { result ≡ 4 + length (attributes_of (made self.now) (numbers_in numbers.now)) }
    {
        let sizes = numbers
            .pairs
            .iter()
            .map(|pair| self.attribute_size(u16::from_le_bytes(*pair)));
        4 + sizes.sum::<usize>()
    }

    /// Writes the entry's attributes, which fit; returns where they end.
    pub fn put_attributes(&self, numbers: &Numbers, buf: &mut [u8], at: usize) -> usize
        requires { at + length (attributes_of (made self.now) (numbers_in numbers.now)) ≤ length buf.old }
        ensures end { result ≡ at + length (attributes_of (made self.now) (numbers_in numbers.now)) }
        ensures bytes { buf.new ≡ put buf.old at (attributes_of (made self.now) (numbers_in numbers.now)) }
    {
        self.put_listed(numbers.pairs, buf, at)
    }

    /// Writes the attributes of a list of any length, two bytes for each number; they fit. Returns where they end.
    pub fn put_listed(&self, pairs: &[[u8; 2]], buf: &mut [u8], at: usize) -> usize
        requires { at + length (attributes_of (made self.now) (map word pairs.now)) ≤ length buf.old }
        ensures end { result ≡ at + length (attributes_of (made self.now) (map word pairs.now)) }
        ensures bytes { buf.new ≡ put buf.old at (attributes_of (made self.now) (map word pairs.now)) }
    {
        let mut used = at;
        for pair in pairs {
            used += self.value(u16::from_le_bytes(*pair)).put(buf, used);
        }
        used
    }
}

/// The product modulo 2^32.
fn wrapping_mul32(x: u32, y: u32) -> u32
    ensures { result ≡ x * y % 4294967296 }
{
    x.wrapping_mul(y)
}

/// An ID times a factor plus an offset, modulo 2^32.
fn address_of(id: u32, factor: u32, offset: u32) -> u32
    ensures { result ≡ (id * factor + offset) % 4294967296 }
{
    wrapping_mul32(id, factor).wrapping_add(offset)
}

/// Attribute 6 of a tag that is no alias.
const BASE_TAG: u32 = 0x4000000;

fn control_of(alias: u32) -> u32
    ensures { result ≡ pick (marked alias) 0 base_tag }
{
    if alias == 1 { 0 } else { BASE_TAG }
}

/// The name of another symbol.
pub(crate) fn other_name<'a>(t: &Tables<'a>, row: &[u32; 5]) -> &'a [u8]
    ensures name { result.now ≡ other_name t.now.names.now row.now }
    ensures short { length result.now ≤ 4294967295 }
{
    lookup::part_of(t.names, row[OTHER_NAME_START], row[OTHER_NAME_LENGTH])
}
