// The C entry points; `ciplink.h` of the crate `ciplink` declares them. Each calls the function of its name there and promises what that
// promises. A slice of bytes passes as a pointer and a length, a slice of rows as a pointer and a count of rows.
#![tactic(auto)]

ghost use Rattle.std.specs.Prelude.{◌≡◌, true, ◌≤◌, length, get_or};
ghost use Rattle.laws.specs.Pick.{pick};
ghost use Rattle.definition.specs.Reply.{room};
ghost use Rattle.definition.specs.Valid.{valid};
ghost use Rattle.definition.specs.Breach.{breach};
ghost use Rattle.definition.specs.Answer.{answer};
ghost use Rattle.definition.specs.Entry.{entry};
ghost use Rattle.definition.specs.Joined.{pair, joinable, joined_to};
ghost use Rattle.model.specs.Tables.{tables_of, tables_from, flags_in};
ghost use Rattle.services.specs.Answers.{Answers};
ghost use Rattle.whole.specs.Whole.{whole_read};
ghost use Rattle.whole.specs.Lists.{whole_list};
ghost use Rattle.ciplink.specs.Entries.{ToldReply, ToldWhole, told_words};

use model::Tables;
use whole::pages::Listing;
use whole::requests::Read;

/// Eight slices, as C lends them, as one table set.
fn lent<'a>(
    structures: &'a [[u32; 10]],
    members: &'a [[u32; 9]],
    programs: &'a [[u32; 2]],
    tags: &'a [[u32; 12]],
    others: &'a [[u32; 5]],
    names: &'a [u8],
    tag_names: &'a [u8],
    templates: &'a [u8],
) -> Tables<'a>
    ensures { tables_of result ≡ tables_from structures.now members.now programs.now tags.now others.now names.now tag_names.now templates.now }
{
    Tables {
        structures,
        members,
        programs,
        tags,
        others,
        names,
        tag_names,
        templates,
    }
}

/// 1 if the tables are valid by T1 to T6 for this tag memory, else 0.
#[unsafe(no_mangle)]
pub extern "C" fn ciplink_valid(
    structures: &[[u32; 10]],
    members: &[[u32; 9]],
    programs: &[[u32; 2]],
    tags: &[[u32; 12]],
    others: &[[u32; 5]],
    names: &[u8],
    tag_names: &[u8],
    templates: &[u8],
    memory: &[u8],
) -> u32
    ensures { let t = tables_from structures.now members.now programs.now tags.now
        others.now names.now tag_names.now templates.now in
        result ≡ pick (valid t (length memory.now)) 1 0 }
{
    let t = lent(
        structures, members, programs, tags, others, names, tag_names, templates,
    );
    ciplink::ciplink_valid(&t, memory)
}

/// The rule that the tables break first, 0 where they are valid; `told` says where.
#[unsafe(no_mangle)]
pub extern "C" fn ciplink_breach(
    structures: &[[u32; 10]],
    members: &[[u32; 9]],
    programs: &[[u32; 2]],
    tags: &[[u32; 12]],
    others: &[[u32; 5]],
    names: &[u8],
    tag_names: &[u8],
    templates: &[u8],
    memory: &[u8],
    told: &mut [u64; 5],
) -> u64
    ensures { let t = tables_from structures.now members.now programs.now tags.now
        others.now names.now tag_names.now templates.now in
        let words = told_words (breach t (length memory.now)) in
        (result ≡ get_or words 0 0) × (told.new ≡ words) }
{
    let t = lent(
        structures, members, programs, tags, others, names, tag_names, templates,
    );
    ciplink::ciplink_breach(&t, memory, told)
}

// The C interface has this and the next: this one asks for valid tables and refuses nothing at the entry.
/// Answers a request over tables that ciplink_valid took, within the limits of items 1 to 3: the reply's length.
#[unsafe(no_mangle)]
pub extern "C" fn ciplink_answer(
    structures: &[[u32; 10]],
    members: &[[u32; 9]],
    programs: &[[u32; 2]],
    tags: &[[u32; 12]],
    others: &[[u32; 5]],
    names: &[u8],
    tag_names: &[u8],
    templates: &[u8],
    flags: u32,
    memory: &mut [u8],
    request: &[u8],
    limit: usize,
    buf: &mut [u8],
) -> u64
    requires { let t = tables_from structures.now members.now programs.now tags.now others.now names.now tag_names.now templates.now in
        (length request.now ≤ 65535) × (limit ≤ 65535) × (room limit ≤ length buf.old) × (valid t (length memory.old) ≡ true) }
    ensures { let t = tables_from structures.now members.now programs.now tags.now
        others.now names.now tag_names.now templates.now in
        Answers limit (answer t (flags_in flags) memory.old request.now limit) buf.old result buf.new
        memory.new }
{
    let t = lent(
        structures, members, programs, tags, others, names, tag_names, templates,
    );
    ciplink::ciplink_answer(&t, flags, memory, request, limit, buf)
}

/// Answers any request over any tables: the reply's length, or 0x1_0000_0000 plus the number of an entry refusal, which changes nothing.
#[unsafe(no_mangle)]
pub extern "C" fn ciplink_message(
    structures: &[[u32; 10]],
    members: &[[u32; 9]],
    programs: &[[u32; 2]],
    tags: &[[u32; 12]],
    others: &[[u32; 5]],
    names: &[u8],
    tag_names: &[u8],
    templates: &[u8],
    flags: u32,
    memory: &mut [u8],
    request: &[u8],
    limit: usize,
    buf: &mut [u8],
) -> u64
    ensures { let t = tables_from structures.now members.now programs.now tags.now
        others.now names.now tag_names.now templates.now in
        ToldReply (entry t (flags_in flags) memory.old request.now limit buf.old) result buf.new
        memory.new }
{
    let t = lent(
        structures, members, programs, tags, others, names, tag_names, templates,
    );
    ciplink::ciplink_message(&t, flags, memory, request, limit, buf)
}

/// Reads all of what a path and an element count select into `out`: the number of bytes joined, or why nothing was (ciplink.h has the numbers).
#[unsafe(no_mangle)]
pub extern "C" fn ciplink_read_whole(
    structures: &[[u32; 10]],
    members: &[[u32; 9]],
    programs: &[[u32; 2]],
    tags: &[[u32; 12]],
    others: &[[u32; 5]],
    names: &[u8],
    tag_names: &[u8],
    templates: &[u8],
    flags: u32,
    memory: &mut [u8],
    path: &[u8],
    elements: u16,
    limit: usize,
    buf: &mut [u8],
    out: &mut [u8],
) -> u64
    ensures { let t = tables_from structures.now members.now programs.now tags.now
        others.now names.now tag_names.now templates.now in
        ToldWhole (whole_read t (flags_in flags) memory.old path.now elements limit buf.old out.old) result
        out.new buf.new × (memory.new ≡ memory.old) }
{
    let t = lent(
        structures, members, programs, tags, others, names, tag_names, templates,
    );
    let read = Read { path, elements };
    ciplink::ciplink_read_whole(&t, flags, memory, &read, limit, buf, out)
}

/// Lists all symbols of a scope into `out`: the number of bytes joined, or why nothing was (ciplink.h has the numbers).
#[unsafe(no_mangle)]
pub extern "C" fn ciplink_list_whole(
    structures: &[[u32; 10]],
    members: &[[u32; 9]],
    programs: &[[u32; 2]],
    tags: &[[u32; 12]],
    others: &[[u32; 5]],
    names: &[u8],
    tag_names: &[u8],
    templates: &[u8],
    flags: u32,
    memory: &mut [u8],
    program: &[u8],
    attributes: &[u8],
    limit: usize,
    buf: &mut [u8],
    out: &mut [u8],
) -> u64
    ensures { let t = tables_from structures.now members.now programs.now tags.now
        others.now names.now tag_names.now templates.now in
        ToldWhole (whole_list t (flags_in flags) memory.old program.now attributes.now limit buf.old
        out.old) result out.new buf.new × (memory.new ≡ memory.old) }
{
    let t = lent(
        structures, members, programs, tags, others, names, tag_names, templates,
    );
    let listing = Listing {
        program,
        attributes,
    };
    ciplink::ciplink_list_whole(&t, flags, memory, &listing, limit, buf, out)
}

/// Joins the masks of a masked write with those of the next one to the same target, in the place of the first pair: 1, or 0 where
/// the four are not of one length; nothing is written then.
#[unsafe(no_mangle)]
pub extern "C" fn ciplink_join_masks(
    ors: &mut [u8],
    ands: &mut [u8],
    next_ors: &[u8],
    next_ands: &[u8],
) -> u32
    ensures { let first = pair ors.old ands.old in let next = pair next_ors.now next_ands.now in
        (result ≡ pick (joinable first next) 1 0) × (pair ors.new ands.new ≡ joined_to first next) }
{
    ciplink::ciplink_join_masks(ors, ands, next_ors, next_ands)
}
