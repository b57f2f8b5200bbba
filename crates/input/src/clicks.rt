// The requests of masked writes in a row, joined into one request.
ghost use Rattle.std.specs.Prelude.{◌≡◌, ◌+◌, ◌*◌, ◌≤◌, length, IfSome};
ghost use Rattle.laws.specs.Pick.{pick};
ghost use Rattle.input.specs.Clicks.{mask_start, is_masked_write, found_masks, joins, joined_request};

use cip::codes::WRITE_MASKED;

/// Where a masked write's masks begin: behind service, words, path and size. None of a request that is none, or that has not as many mask bytes as
/// it says.
fn masks_at(s: &[u8]) -> Option<usize>
    ensures found { result ≡ found_masks s.now }
    ensures inside { IfSome result (λ at. at ≤ length s.now) }
{
    let [service, words, ..] = s else {
        return None;
    };
    if *service != WRITE_MASKED {
        return None;
    }
    let at = 4 + 2 * usize::from(*words);
    if s.len() < at {
        return None;
    }
    let size = usize::from(cip::u16_at(s, at - 2));
    (s.len() == at + 2 * size).then_some(at)
}

/// Whether a request is a masked write with masks of the size that it names, and nothing behind them.
pub fn is_masked_write(s: &[u8]) -> bool
    ensures { result ≡ is_masked_write s.now }
{
    masks_at(s).is_some()
}

/// Joins the next request to a row of masked writes, in the place of the row's request: both have the same path and size.
/// False where they do not join; the row stays as it is then.
pub fn join(row: &mut [u8], next: &[u8]) -> bool
    ensures { (result ≡ joins row.old next.now)
        × (row.new ≡ pick (joins row.old next.now) (joined_request row.old next.now)
        row.old) }
{
    let Some(at) = masks_at(row) else {
        return false;
    };
    if next.len() != row.len() {
        return false;
    }
    if row[..at] != next[..at] {
        return false;
    }
    let ands = at + (next.len() - at) / 2;
    writes::masks::join_at(row, at, &next[at..ands], &next[ands..]);
    true
}
