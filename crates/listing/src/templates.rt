// A template read: bytes of the template store from an offset on, cut to the limit.
ghost use Rattle.std.specs.Prelude.{◌+◌, ◌≤◌, length};
ghost use Rattle.definition.specs.Reply.{room};
ghost use Rattle.definition.specs.Tables.{template_start, template_length};
ghost use Rattle.definition.specs.Lookup.{structure_with_template};
ghost use Rattle.definition.specs.Template.{template_reply};
ghost use Rattle.definition.specs.Answer.{read_template};
ghost use Rattle.cip.specs.Writes.{Laid};
ghost use Rattle.model.specs.Tables.{tables_of, Whatever};
ghost use Rattle.listing.specs.Templates.{template_lent, cut_to_limit, InStore};

use cip::{Status, replies};
use model::Tables;
use model::columns::{TEMPLATE_LENGTH, TEMPLATE_START};
use reads::Store;

/// Sends what is due, or as many bytes of it as fit; 0x11 if none fits.
fn send_part(due: &[u8], service: u8, limit: usize, buf: &mut [u8]) -> usize
    requires { room limit ≤ length buf.old }
    ensures { Laid limit (cut_to_limit service due.now limit) buf.old result buf.new }
{
    let space = replies::space_of(limit);
    if due.len() <= space {
        return replies::send(due, service, Status::Success, limit, buf);
    }
    if space == 0 {
        return cip::fail(buf, limit, service, Status::TooLarge);
    }
    replies::send(&due[..space], service, Status::Partial, limit, buf)
}

/// The answer to a read of a structure's template.
fn template_reply(
    templates: &[u8],
    memory: &[u8],
    row: &[u32; 10],
    service: u8,
    body: &[u8],
    limit: usize,
    buf: &mut [u8],
) -> usize
    requires { (template_start row.now + template_length row.now ≤ length templates.now) × (room limit ≤ length buf.old) }
    ensures { Laid limit (template_reply templates.now row.now service body.now limit) buf.old result buf.new }
{
    if body.len() < 6 {
        return cip::fail(buf, limit, service, Status::TooShort);
    }
    let offset = cip::u32_at(body, 0);
    let length = row[TEMPLATE_LENGTH];
    if length < offset {
        return cip::fail(buf, limit, service, Status::BeyondEnd);
    }
    let wanted = usize::from(cip::u16_at(body, 4));
    let due = wanted.min((length - offset) as usize);
    let from = row[TEMPLATE_START] as usize + offset as usize;
    let bytes = reads::chunk(templates, memory, Store::Templates, from, due);
    send_part(bytes, service, limit, buf)
}

/// The template of an ID; 0x05 for an unknown one. Tag memory is lent beside the template store, since a fragment is a part of one of the two.
#[tactic(auto, using(crate::proofs::Found::template_inside))]
pub fn read_template(
    t: &Tables,
    memory: &[u8],
    service: u8,
    id: u32,
    body: &[u8],
    limit: usize,
    buf: &mut [u8],
) -> usize
    requires { let t = tables_of t.now in InStore (length t.templates) t.structures × (room limit ≤ length buf.old) }
    ensures { Whatever (template_lent (tables_of t.now))
        (λ t. Laid limit (read_template t service (structure_with_template t id) body.now limit) buf.old result buf.new) }
{
    match t.find_template(id) {
        Some(i) => template_reply(
            t.templates,
            memory,
            &t.structures[i],
            service,
            body,
            limit,
            buf,
        ),
        None => cip::fail(buf, limit, service, Status::PathUnknown),
    }
}
