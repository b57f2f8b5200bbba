// Tags as records with named fields: how a program keeps and lends them, beside the flat rows that the services take.
// What takes `&[Tag]` or `&mut [Tag]` promises something of the records and of the rows that they mean.
#![tactic(auto)]

ghost use Rattle.std.specs.Prelude.{◌≡◌, Bool, ◌<◌, length, set, None, Some};
ghost use Rattle.laws.specs.Scan.{scan};
ghost use Rattle.definition.specs.Tables.{Row};
ghost use Rattle.definition.specs.Lookup.{tag_in, id_in};
ghost use Rattle.records.specs.Records.{row_of, tag_of, tag_at, row_at, rows_of, TestsRows, lookup_of, Packs};

use model::columns::{
    TAG_ACCESS, TAG_ALIAS, TAG_ELEMENTS, TAG_ID, TAG_NAME_LENGTH, TAG_NAME_START, TAG_OFFSET,
    TAG_SCOPE, TAG_TYPE,
};
use model::lookup;
use model::shapes::lengths_of;

/// A tag: its scope (0 is the controller, k + 1 program k), its name's place in the store of tag names, its instance ID,
/// its type word, its array lengths (nonzero first), its elements, its access, its alias mark and its place in tag memory.
#[derive(Clone, Copy)]
pub struct Tag {
    pub scope: u32,
    pub name_start: u32,
    pub name_length: u32,
    pub id: u32,
    pub ty: u32,
    pub lengths: [u32; 3],
    pub elements: u32,
    pub access: u32,
    pub alias: u32,
    pub offset: u32,
}

/// A record that a lookup found, and its place among those lent.
#[derive(Clone, Copy)]
pub struct Found {
    pub at: usize,
    pub tag: Tag,
}

impl From<Tag> for [u32; 12] {
    ghost from_gives = { λ tag row. row ≡ row_of tag };

    /// A record as a flat row.
    fn from(tag: Tag) -> [u32; 12] {
        let [first, second, third] = tag.lengths;
        [
            tag.scope,
            tag.name_start,
            tag.name_length,
            tag.id,
            tag.ty,
            first,
            second,
            third,
            tag.elements,
            tag.access,
            tag.alias,
            tag.offset,
        ]
    }
}

impl From<[u32; 12]> for Tag {
    ghost from_gives = { λ row tag. tag ≡ tag_of row };

    /// A flat row as a record.
    fn from(row: [u32; 12]) -> Tag {
        Tag {
            scope: row[TAG_SCOPE],
            name_start: row[TAG_NAME_START],
            name_length: row[TAG_NAME_LENGTH],
            id: row[TAG_ID],
            ty: row[TAG_TYPE],
            lengths: lengths_of(&row),
            elements: row[TAG_ELEMENTS],
            access: row[TAG_ACCESS],
            alias: row[TAG_ALIAS],
            offset: row[TAG_OFFSET],
        }
    }
}

/// How many records there are.
pub fn tag_count(tags: &[Tag]) -> usize
    ensures records { result ≡ length tags.now }
    ensures rows { result ≡ length (rows_of tags.now) }
{
    tags.len()
}

/// One record.
pub fn tag_at(tags: &[Tag], i: usize) -> Tag
    requires { i < length tags.now }
    ensures record_is { result ≡ tag_at tags.now i }
    ensures row_is { row_of result ≡ row_at (rows_of tags.now) i }
{
    tags[i]
}

/// One record is stored.
pub fn set_tag(tags: &mut [Tag], i: usize, tag: Tag)
    requires { i < length tags.old }
    ensures records { tags.new ≡ set tags.old i tag }
    ensures rows { rows_of tags.new ≡ set (rows_of tags.old) i (row_of tag) }
{
    tags[i] = tag;
}

/// A record is stored into a table of flat rows.
pub fn pack_one(rows: &mut [[u32; 12]], i: usize, tag: Tag)
    requires { i < length rows.old }
    ensures { rows.new ≡ set rows.old i (row_of tag) }
{
    rows[i] = tag.into();
}

/// The records as the rows that the services take: as many as both slices have room for; returns how many. The rows after
/// those stay as they were. Call it before `logix::entry::message`, and hand that the first rows, as many as it says.
pub fn pack(tags: &[Tag], rows: &mut [[u32; 12]]) -> usize
    ensures { Packs tags.now rows.old result rows.new }
{
    let n = tags.len().min(rows.len());
    for (i, row) in rows[..n].iter_mut().enumerate() {
        *row = tags[i].into();
    }
    n
}

/// The first record that passes a test of its row, and its place.
fn first_with<F: Fn(&Tag) -> bool>(tags: &[Tag], passes: F) -> Option<Found>
    requires { F.IsAlwaysCallable passes }
    ensures { (p : Row → Bool) → TestsRows (F.post passes) p
        → result ≡ lookup_of tags.now (scan p Some None 0 (rows_of tags.now)) }
{
    // a closure: nothing says of the calls that `position(passes)` makes that `passes` stays as it was
    tags.iter()
        .position(|tag| passes(tag))
        .map(|at| Found { at, tag: tags[at] })
}

/// The first tag of that scope and name: the record whose row the flat search finds among the rows that the records mean.
#[tactic(auto, unfolding(definition::specs::Lookup::tag_in))]
pub fn tag_named(tags: &[Tag], tag_names: &[u8], scope: u32, name: &[u8]) -> Option<Found>
    ensures { result ≡ lookup_of tags.now (tag_in (rows_of tags.now) tag_names.now scope name.now) }
{
    first_with(
        tags,
        |tag| lookup::tag_is(&(*tag).into(), tag_names, scope, name),
    )
}

/// The first tag of that scope and instance ID, likewise.
#[tactic(auto, unfolding(definition::specs::Lookup::id_in))]
pub fn tag_with_id(tags: &[Tag], scope: u32, id: u32) -> Option<Found>
    ensures { result ≡ lookup_of tags.now (id_in (rows_of tags.now) scope id) }
{
    first_with(
        tags,
        |tag| lookup::id_is(&<[u32; 12]>::from(*tag), scope, id),
    )
}
