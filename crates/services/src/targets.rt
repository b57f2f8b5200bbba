// Items 14 to 18: the services of a tag, from its path to tag memory.
ghost use Rattle.std.specs.Prelude.{◌≡◌, true, [], ◌≤◌, length};
ghost use Rattle.definition.specs.Reply.{room};
ghost use Rattle.definition.specs.Read.{read_reply};
ghost use Rattle.definition.specs.Valid.{valid};
ghost use Rattle.definition.specs.Answer.{is_read, is_write, is_tag_service, tag_service};
ghost use Rattle.cip.specs.Statuses.{status_of};
ghost use Rattle.cip.specs.Writes.{Laid};
ghost use Rattle.writes.specs.Storing.{status_said};
ghost use Rattle.model.specs.Tables.{tables_of, flags_of, target_of, Aimed};
ghost use Rattle.services.specs.Answers.{Answers, OnPath};
ghost use Rattle.services.specs.Services.{on_found};

use cip::Status;
use cip::codes::{READ, READ_FRAGMENTED, WRITE, WRITE_FRAGMENTED, WRITE_MASKED};
use model::{Controller, Tables, Target};
use path::Request;

// A service stays its number, here and below: the reply gives the number back, and the definition speaks of numbers.
fn is_read(service: u8) -> bool
    ensures { result ≡ is_read service }
{
    service == READ || service == READ_FRAGMENTED
}

fn is_write(service: u8) -> bool
    ensures { result ≡ is_write service }
{
    service == WRITE || service == WRITE_FRAGMENTED || service == WRITE_MASKED
}

pub fn is_tag_service(service: u8) -> bool
    ensures { result ≡ is_tag_service service }
{
    is_read(service) || is_write(service)
}

// That a target stands in tag memory (`Aimed`) is said of the memory that is lent, which no type of a target can do.

/// Decodes what a read is asked for, and reads: elements from an offset on, which is 0 where the request brings none.
fn serve_read(
    t: &Tables,
    memory: &[u8],
    service: u8,
    g: Target,
    body: &[u8],
    limit: usize,
    buf: &mut [u8],
) -> usize
    requires { Aimed t.now.structures.now (length memory.now) g × (room limit ≤ length buf.old) }
    ensures { Laid limit (read_reply t.now.structures.now memory.now service (target_of g []) body.now limit)
        buf.old result buf.new }
{
    match reads::read_fields(service, body) {
        Some(fields) => reads::read(t, memory, service, g, fields, limit, buf),
        None => cip::fail(buf, limit, service, Status::TooShort),
    }
}

/// What a write's reply says: Success, or why nothing was stored.
fn said(stored: Result<(), Status>) -> Status
    ensures { status_of result ≡ status_said stored }
{
    match stored {
        Ok(()) => Status::Success,
        Err(status) => status,
    }
}

/// Reads or writes a resolved target; a write's status is its whole reply.
fn serve(
    t: &Tables,
    memory: &mut [u8],
    service: u8,
    g: Target,
    body: &[u8],
    limit: usize,
    buf: &mut [u8],
) -> usize
    requires { Aimed t.now.structures.now (length memory.old) g × (room limit ≤ length buf.old) }
    ensures { Answers limit (on_found t.now.structures.now memory.old service (target_of g []) body.now limit)
        buf.old result buf.new memory.new }
{
    if is_read(service) {
        return serve_read(t, memory, service, g, body, limit, buf);
    }
    if service == WRITE_MASKED {
        let stored = writes::masks::masked_write(memory, g, body);
        return cip::fail(buf, limit, service, said(stored));
    }
    let stored = writes::values::write(t, memory, service, g, body);
    cip::fail(buf, limit, service, said(stored))
}

/// A tag service on a tag path.
pub fn tag_service(
    c: &Controller,
    memory: &mut [u8],
    q: &Request,
    limit: usize,
    buf: &mut [u8],
) -> usize
    requires judged { valid (tables_of c.now.tables) (length memory.old) ≡ true }
    requires room { room limit ≤ length buf.old }
    ensures { OnPath q.now.path.now limit
        (λ l. tag_service (tables_of c.now.tables) (flags_of c.now.flags) memory.old q.now.service l q.now.body.now limit)
        buf.old result buf.new memory.new }
{
    match resolve::tag_target(c, is_write(q.service), q.path) {
        Ok(g) => serve(&c.tables, memory, q.service, g, q.body, limit, buf),
        Err(status) => cip::fail(buf, limit, q.service, status),
    }
}
