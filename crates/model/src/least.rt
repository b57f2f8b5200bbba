// The symbol of the least ID not below a bound, among a scope's tags and other symbols: the next entry of a page.
ghost use Rattle.std.specs.Prelude.{◌≡◌, ◌<◌};
ghost use Rattle.model.specs.Least.{nearer, least_row, least_in, nearest, next_in};

use crate::columns::{SYMBOL_ID, SYMBOL_SCOPE};

/// A scope, and the ID from which on its symbols are looked for: behind the largest ID it exceeds 32 bits.
#[derive(Clone, Copy)]
pub struct Bound {
    pub scope: u32,
    pub id: u64,
}

/// A row's place and its ID.
#[derive(Clone, Copy)]
pub struct Listed {
    pub place: usize,
    pub id: u32,
}

/// The next symbol: a tag or another symbol.
#[derive(Clone, Copy)]
pub enum Next {
    Tag(Listed),
    Other(Listed),
}

/// A row before others: it, unless they have a lower ID.
fn nearer(here: Listed, rest: Option<Listed>) -> Listed
    ensures { result ≡ nearer here rest }
{
    match rest {
        Some(other) if here.id >= other.id => other,
        _ => here,
    }
}

/// One row of the search, before the rest.
fn least_from<const N: usize>(
    place: usize,
    row: &[u32; N],
    from: Bound,
    rest: Option<Listed>,
) -> Option<Listed>
    requires { 3 < N }
    ensures { result ≡ least_row from.scope from.id place row.now rest }
{
    let id = row[SYMBOL_ID];
    if row[SYMBOL_SCOPE] == from.scope && from.id <= u64::from(id) {
        return Some(nearer(Listed { place, id }, rest));
    }
    rest
}

/// The row of the least ID not below a bound, among a scope's rows.
pub fn least_in<const N: usize>(rows: &[[u32; N]], from: Bound) -> Option<Listed>
    requires { 3 < N }
    ensures { result ≡ least_in from.scope from.id rows.now }
{
    let mut best = None;
    for (place, row) in rows.iter().enumerate().rev() {
        best = least_from(place, row, from, best);
    }
    best
}

/// The nearer of a tag and another symbol.
fn nearest(tag: Option<Listed>, other: Option<Listed>) -> Option<Next>
    ensures { result ≡ nearest tag other }
{
    match (tag, other) {
        (Some(t), Some(o)) if t.id >= o.id => Some(Next::Other(o)),
        (Some(t), _) => Some(Next::Tag(t)),
        (None, o) => o.map(Next::Other),
    }
}

/// The symbol of the least ID not below a bound.
pub fn next_symbol(tags: &[[u32; 12]], others: &[[u32; 5]], from: Bound) -> Option<Next>
    ensures { result ≡ next_in tags.now others.now from.scope from.id }
{
    nearest(least_in(tags, from), least_in(others, from))
}
