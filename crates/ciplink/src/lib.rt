// What the C entry points do: `ciplink_c` exports each under its name, and ciplink.h declares them.
#![tactic(auto)]

ghost use Rattle.std.specs.Prelude.{◌≡◌, true, ◌+◌, ◌≤◌, length, get_or};
ghost use Rattle.laws.specs.Pick.{pick};
ghost use Rattle.definition.specs.Reply.{room};
ghost use Rattle.definition.specs.Valid.{valid};
ghost use Rattle.definition.specs.Breach.{breach};
ghost use Rattle.definition.specs.Answer.{answer};
ghost use Rattle.definition.specs.Entry.{entry};
ghost use Rattle.definition.specs.Joined.{pair, joinable, joined_to};
ghost use Rattle.model.specs.Tables.{tables_of, flags_of, flags_in};
ghost use Rattle.services.specs.Answers.{Answers};
ghost use Rattle.whole.specs.Whole.{whole_read};
ghost use Rattle.whole.specs.Lists.{whole_list};
ghost use Rattle.tables.specs.Rules.{told_of};
ghost use Rattle.ciplink.specs.Entries.{ToldReply, unjoined_code, whole_code, ToldWhole, told_words};

use model::{Controller, Tables};
use tables::rules::Breach;
use whole::Unjoined;
use whole::pages::Listing;
use whole::requests::Read;

/// What a refusal's number is added to: no reply is so long.
const REFUSED: u64 = 0x1_0000_0000;

/// Why nothing was joined.
const TURNED: u64 = 0x2_0000_0000;

const TOO_SHORT: u64 = 0x3_0000_0000;

const TOO_NARROW: u64 = 0x4_0000_0000;

const UNSENDABLE: u64 = 0x5_0000_0000;

/// The controller of these tables, with flags by their bits.
fn controller<'a>(t: &Tables<'a>, flags: u32) -> Controller<'a>
    ensures tables { tables_of result.tables ≡ tables_of t.now }
    ensures flags { flags_of result.flags ≡ flags_in flags }
{
    Controller {
        tables: *t,
        flags: flags.into(),
    }
}

/// Why nothing was joined, in 64 bits.
fn unjoined_code(why: Unjoined) -> u64
    ensures { result ≡ unjoined_code why }
{
    match why {
        Unjoined::Refused(refusal) => REFUSED + refusal.number(),
        Unjoined::Turned(status) => TURNED + u64::from(status.code()),
        Unjoined::TooShort(n) => TOO_SHORT + n as u64 % REFUSED,
        Unjoined::TooNarrow => TOO_NARROW,
        Unjoined::Unsendable => UNSENDABLE,
    }
}

/// What a whole read or a whole list comes to, in 64 bits.
fn whole_code(w: Result<usize, Unjoined>) -> u64
    ensures { result ≡ whole_code w }
{
    match w {
        Ok(n) => n as u64,
        Err(why) => unjoined_code(why),
    }
}

/// 1 if the tables are valid by T1 to T6 for this tag memory, else 0.
pub fn ciplink_valid(t: &Tables, memory: &[u8]) -> u32
    ensures { result ≡ pick (valid (tables_of t.now) (length memory.now)) 1 0 }
{
    u32::from(tables::valid(t, memory))
}

/// The words of what is told: rule, table, row, the other row's table and the other row.
fn words_of(told: Option<Breach>) -> [u64; 5]
    ensures { result ≡ told_words (told_of told) }
{
    let Some(b) = told else {
        return [0; 5];
    };
    let (table, row) = match b.other {
        Some(other) => (u64::from(other.table.number()), other.row as u64),
        None => (0, 0),
    };
    [
        u64::from(b.rule.number()),
        u64::from(b.at.table.number()),
        b.at.row as u64,
        table,
        row,
    ]
}

/// The rule that the tables break first, 0 where they are valid; `told` says where.
pub fn ciplink_breach(t: &Tables, memory: &[u8], told: &mut [u64; 5]) -> u64
    ensures { let words = told_words (breach (tables_of t.now) (length memory.now)) in
        (result ≡ get_or words 0 0) × (told.new ≡ words) }
{
    *told = words_of(tables::breach(t, memory));
    told[0]
}

/// Answers a request over tables that ciplink_valid took, within the limits of items 1 to 3: the reply's length.
pub fn ciplink_answer(
    t: &Tables,
    flags: u32,
    memory: &mut [u8],
    request: &[u8],
    limit: usize,
    buf: &mut [u8],
) -> u64
    requires { (length request.now ≤ 65535) × (limit ≤ 65535) × (room limit ≤ length buf.old)
        × (valid (tables_of t.now) (length memory.old) ≡ true) }
    ensures { Answers limit (answer (tables_of t.now) (flags_in flags) memory.old request.now limit) buf.old result buf.new memory.new }
{
    logix::entry::answer(&controller(t, flags), memory, request, limit, buf) as u64
}

/// Answers any request over any tables: the reply's length, or 0x1_0000_0000 plus the number of an entry refusal, which changes nothing.
pub fn ciplink_message(
    t: &Tables,
    flags: u32,
    memory: &mut [u8],
    request: &[u8],
    limit: usize,
    buf: &mut [u8],
) -> u64
    ensures { ToldReply (entry (tables_of t.now) (flags_in flags) memory.old request.now limit buf.old) result buf.new memory.new }
{
    match logix::entry::message(&controller(t, flags), memory, request, limit, buf) {
        Ok(n) => n as u64,
        Err(why) => REFUSED + why.number(),
    }
}

/// Reads all of what a path and an element count select into `out`: the number of bytes joined, or why nothing was (ciplink.h has the numbers).
pub fn ciplink_read_whole(
    t: &Tables,
    flags: u32,
    memory: &mut [u8],
    read: &Read,
    limit: usize,
    buf: &mut [u8],
    out: &mut [u8],
) -> u64
    ensures { ToldWhole (whole_read (tables_of t.now) (flags_in flags) memory.old read.now.path.now read.now.elements limit buf.old out.old)
        result out.new buf.new × (memory.new ≡ memory.old) }
{
    whole_code(whole::read_whole(&controller(t, flags), memory, read, limit, buf, out))
}

/// Lists all symbols of a scope into `out`: the number of bytes joined, or why nothing was (ciplink.h has the numbers).
pub fn ciplink_list_whole(
    t: &Tables,
    flags: u32,
    memory: &mut [u8],
    listing: &Listing,
    limit: usize,
    buf: &mut [u8],
    out: &mut [u8],
) -> u64
    ensures { ToldWhole (whole_list (tables_of t.now) (flags_in flags) memory.old listing.now.program.now listing.now.attributes.now limit
        buf.old out.old) result out.new buf.new × (memory.new ≡ memory.old) }
{
    whole_code(whole::lists::list_whole(&controller(t, flags), memory, listing, limit, buf, out))
}

/// Joins the masks of a masked write with those of the next one to the same target, in the place of the first pair: 1, or 0 where
/// the four are not of one length; nothing is written then.
pub fn ciplink_join_masks(ors: &mut [u8], ands: &mut [u8], next_ors: &[u8], next_ands: &[u8]) -> u32
    ensures { let first = pair ors.old ands.old in let next = pair next_ors.now next_ands.now in
        (result ≡ pick (joinable first next) 1 0) × (pair ors.new ands.new ≡ joined_to first next) }
{
    u32::from(writes::masks::join_masks(ors, ands, next_ors, next_ands))
}
