// Whether each two symbols pass the tests of two rows, by sorting: names by a number of each, IDs, and bytes.
// Where they seem not to, a symbol is named that is worth comparing with each behind it: nothing is proved of which.
ghost use Rattle.std.specs.Prelude.{◌≡◌, true, ◌+◌, ◌≤◌, ◌<◌, IsOk, length, get_or, []};
ghost use Rattle.laws.specs.Tests.{every, pairs};
ghost use Rattle.definition.specs.Tables.{Row};
ghost use Rattle.definition.specs.Valid.{tag_names_differ, other_names_differ, ids_differ, apart};
ghost use Rattle.model.specs.Tables.{tables_of};
ghost use Rattle.spread.specs.declared.Span.{Span};
ghost use Rattle.spread.specs.Keys.{name_key, symbol_key, tag_span, other_span, id_span, byte_span, SpansBy, of_symbol, symbols_judged};

use crate::{Span, Suspect, spread_by};
use model::columns::{SYMBOL_ID, SYMBOL_NAME_LENGTH, SYMBOL_NAME_START, SYMBOL_SCOPE, TAG_OFFSET};
use model::{Tables, limits, lookup};
use rows::row;

/// Below this many tags comparing each two takes less time than sorting.
const FEW: usize = 40;

/// A number of a scope and a name, the same for names that agree.
#[tactic(auto, unfolding(crate::specs::Keys::name_key))]
fn name_key(scope: u32, name: &[u8]) -> usize
    ensures { result ≡ name_key scope name.now }
{
    name.iter().fold(scope as usize, |h, b| {
        h.wrapping_mul(65599)
            .wrapping_add(b.to_ascii_lowercase() as usize)
    })
}

/// That of a tag or another symbol, by the store that has its name.
fn symbol_key<const N: usize>(row: &[u32; N], names: &[u8]) -> usize
    requires { 3 < N }
    ensures { result ≡ symbol_key names.now row.now }
{
    let name = lookup::part_of(names, row[SYMBOL_NAME_START], row[SYMBOL_NAME_LENGTH]);
    name_key(row[SYMBOL_SCOPE], name) % 0x8000_0000_0000
}

/// A tag keeps its number's two places from every symbol.
fn tag_span(row: &[u32; 12], tag_names: &[u8]) -> Span
    ensures { result ≡ tag_span tag_names.now row.now }
{
    let h = symbol_key(row, tag_names);
    Span {
        first: 2 * h,
        end: 2 * h + 2,
    }
}

/// Another symbol stands between them, so it keeps from tags only.
fn other_span(row: &[u32; 5], names: &[u8]) -> Span
    ensures { result ≡ other_span names.now row.now }
{
    let h = symbol_key(row, names);
    Span {
        first: 2 * h + 1,
        end: 2 * h + 1,
    }
}

/// A number of a tag's or another symbol's ID and scope.
fn id_span<const N: usize>(row: &[u32; N]) -> Span
    requires { 3 < N }
    ensures { result ≡ id_span row.now }
{
    let first = row[SYMBOL_ID] as usize * 32 + row[SYMBOL_SCOPE] as usize % 32;
    Span {
        first,
        end: first + 1,
    }
}

/// A tag's bytes.
fn byte_span(row: &[u32; 12], structures: &[[u32; 10]]) -> Span
    ensures { result ≡ byte_span structures.now row.now }
{
    Span {
        first: row[TAG_OFFSET] as usize,
        end: row::tag_end(row, structures) as usize,
    }
}

/// The span of symbol k, the tags first: a tag's row has its own kind of span, and another symbol's row has its own.
#[tactic(auto, using(laws::proofs::Chain::chain), unfolding(crate::specs::Keys::of_symbol))]
fn span_at<F: Fn(&[u32; 12]) -> Span, G: Fn(&[u32; 5]) -> Span>(
    t: &Tables,
    k: usize,
    of_tag: F,
    of_other: G,
) -> Span
    requires symbol { k < length t.now.tags.now + length t.now.others.now }
    requires callable { F.IsAlwaysCallable of_tag × G.IsAlwaysCallable of_other }
    ensures { (f g : Row → Span) → SpansBy (F.post of_tag) f → SpansBy (G.post of_other) g
        → result ≡ of_symbol f g t.now.tags.now t.now.others.now k }
{
    match t.tags.get(k) {
        Some(row) => of_tag(row),
        None => of_other(&t.others[k - t.tags.len()]),
    }
}

// The next two hand the same `spread_by` other spans, and each says another fact of it.
fn names_differ(t: &Tables) -> Result<(), Suspect>
    requires { length t.now.tags.now + length t.now.others.now ≤ 1088 }
    ensures { IsOk result → (pairs (tag_names_differ t.now.tag_names.now) t.now.tags.now ≡ true)
        × (every (λ r. every (other_names_differ t.now.tag_names.now t.now.names.now r) t.now.others.now)
        t.now.tags.now ≡ true) }
{
    let span_of = |k: usize| -> Span
        requires { k < length t.now.tags.now + length t.now.others.now }
    {
        span_at(
            t,
            k,
            |row| tag_span(row, t.tag_names),
            |row| other_span(row, t.names),
        )
    };
    spread_by(t.tags.len() + t.others.len(), span_of)
}

fn ids_differ(t: &Tables) -> Result<(), Suspect>
    requires { length t.now.tags.now + length t.now.others.now ≤ 1088 }
    ensures { IsOk result → (pairs ids_differ t.now.tags.now ≡ true)
        × (every (λ r. every (ids_differ r) t.now.others.now) t.now.tags.now ≡ true)
        × (pairs ids_differ t.now.others.now ≡ true) }
{
    spread_by(
        t.tags.len() + t.others.len(),
        |k| span_at(t, k, id_span, id_span),
    )
}

fn bytes_apart(t: &Tables) -> Result<(), Suspect>
    requires { length t.now.tags.now ≤ 1088 }
    ensures { IsOk result → pairs (apart t.now.structures.now) t.now.tags.now ≡ true }
{
    spread_by(t.tags.len(), |k| byte_span(&t.tags[k], t.structures))
}

/// Whether each two symbols surely pass. Few tags are not worth a sort.
#[tactic(auto, using(crate::proofs::Keyed::all_sure))]
pub fn sure(t: &Tables) -> Result<(), Suspect>
    ensures { IsOk result → symbols_judged (tables_of t.now) ≡ true }
{
    if t.tags.len() < FEW || t.tags.len() > limits::TAGS || t.others.len() > limits::OTHERS {
        return Err(Suspect::Unknown);
    }
    bytes_apart(t)?;
    ids_differ(t)?;
    names_differ(t)
}
