// Which service answers a request that is no envelope: items 9 to 20 of document 01, in their order.
#![tactic(auto)]

use cip::codes::{ATTRIBUTE_LIST, READ, ROUTER_CLASS, SYMBOL_CLASS, SYMBOL_PAGE, TEMPLATE_CLASS};
use cip::{Status, replies};
use model::Controller;
use path::{Object, Request};

pub mod targets;

ghost use Rattle.std.specs.Prelude.{◌≡◌, true, ◌≤◌, length, Option};
ghost use Rattle.laws.specs.Pick.{both};
ghost use Rattle.definition.specs.Reply.{room};
ghost use Rattle.definition.specs.Valid.{valid};
ghost use Rattle.definition.specs.Answer.{capped, otherwise, is_tag_service, by_service, plain as plainly};
ghost use Rattle.cip.specs.Writes.{Laid};
ghost use Rattle.path.specs.Paths.{tag_path_from, ObjectAt};
ghost use Rattle.model.specs.Tables.{tables_of, flags_of};
ghost use Rattle.services.specs.Answers.{OnPath};
ghost use Rattle.services.specs.Services.{own_of, object_is};

/// An object's own service, and its instance.
#[derive(Clone, Copy)]
pub enum Own {
    SymbolList(u32),
    StructureList(u32),
    Template(u32),
}

/// What an object serves itself; a Micro800 lists no attributes of symbols.
fn own_service(o: Option<Object>, service: u8, micro800: bool) -> Option<Own>
    ensures { result ≡ own_of o service micro800 }
{
    let o = o?;
    match (o.class, service) {
        (SYMBOL_CLASS, ATTRIBUTE_LIST) if !micro800 => Some(Own::SymbolList(o.instance)),
        (TEMPLATE_CLASS, ATTRIBUTE_LIST) => Some(Own::StructureList(o.instance)),
        (TEMPLATE_CLASS, READ) => Some(Own::Template(o.instance)),
        _ => None,
    }
}

/// Item 19: what no service answers.
fn refuse_other(o: Option<Object>, service: u8, limit: usize, buf: &mut [u8]) -> usize
    requires { room limit ≤ length buf.old }
    ensures { Laid limit (capped service limit (otherwise service (object_is o))) buf.old result buf.new }
{
    let status = match o {
        Some(o) if o.class == ROUTER_CLASS || o.class == TEMPLATE_CLASS => Status::NotSupported,
        _ => Status::PathUnknown,
    };
    replies::refuse(service, status, limit, buf)
}

/// Items 14 to 18: a tag service on a tag path.
fn is_tag_request(q: &Request) -> bool
    ensures { result ≡ both (is_tag_service q.now.service) (tag_path_from q.now.path.now 0) }
{
    targets::is_tag_service(q.service) && path::is_tag_path(q.path, 0)
}

/// Items 13 to 20, where no object's own service came first.
fn by_service(
    c: &Controller,
    memory: &mut [u8],
    q: &Request,
    o: Option<Object>,
    limit: usize,
    buf: &mut [u8],
) -> usize
    requires object { ObjectAt q.now.path.now 0 o }
    requires judged { valid (tables_of c.now.tables) (length memory.old) ≡ true }
    requires room { room limit ≤ length buf.old }
    ensures { OnPath q.now.path.now limit
        (λ l. by_service (tables_of c.now.tables) (flags_of c.now.flags) memory.old q.now.service l q.now.body.now limit)
        buf.old result buf.new memory.new }
{
    if q.service == SYMBOL_PAGE {
        return listing::requests::list_symbols(&c.tables, q, limit, buf);
    }
    if is_tag_request(q) {
        return targets::tag_service(c, memory, q, limit, buf);
    }
    refuse_other(o, q.service, limit, buf)
}

/// A request that is no envelope; returns the reply's length.
pub fn plain(c: &Controller, memory: &mut [u8], q: &Request, limit: usize, buf: &mut [u8]) -> usize
    requires judged { valid (tables_of c.now.tables) (length memory.old) ≡ true }
    requires room { room limit ≤ length buf.old }
    ensures { OnPath q.now.path.now limit
        (λ l. plainly (tables_of c.now.tables) (flags_of c.now.flags) memory.old q.now.service l q.now.body.now limit)
        buf.old result buf.new memory.new }
{
    let o = path::object_at(q.path, 0);
    let Some(own) = own_service(o, q.service, c.flags.micro800) else {
        return by_service(c, memory, q, o, limit, buf);
    };
    match own {
        Own::SymbolList(id) => {
            listing::attributes::symbol_attributes(&c.tables, q.service, id, q.body, limit, buf)
        }
        Own::StructureList(id) => {
            listing::attributes::structure_attributes(&c.tables, q.service, id, q.body, limit, buf)
        }
        Own::Template(id) => {
            let t = &c.tables;
            listing::templates::read_template(t, memory, q.service, id, q.body, limit, buf)
        }
    }
}
