// The tag that a path starts with, by its name or its instance, behind a program's name or not.
ghost use Rattle.std.specs.Prelude.{◌≡◌, ◌≤◌, length, drop};
ghost use Rattle.definition.specs.Lookup.{program_named};
ghost use Rattle.definition.specs.Request.{object_of, symbol_instance};
ghost use Rattle.definition.specs.Resolve.{by_instance, in_scope, in_program, resolve};
ghost use Rattle.definition.specs.Tables.{takes_instances};
ghost use Rattle.model.specs.Tables.{Whatever, tables_of, flags_of};
ghost use Rattle.resolve.specs.Paths.{left};
ghost use Rattle.resolve.specs.Starts.{start_tables, found_at, Begins, Prefixed};

use crate::rest::Rest;
use cip::Status;
use model::columns::CONTROLLER_SCOPE;
use model::{Controller, Flags, lookup};
use path::Segment;

/// The index of a path's tag, and what follows.
#[derive(Clone, Copy)]
pub struct Start<'a> {
    pub tag: usize,
    pub rest: Rest<'a>,
}

/// What a lookup found, or the status of a tag that is unknown.
fn found_at<'a>(tag: Option<usize>, rest: Rest<'a>, unknown: Status) -> Result<Start<'a>, Status>
    ensures { result ≡ found_at tag rest.entry unknown }
{
    let tag = tag.ok_or(unknown)?;
    Ok(Start { tag, rest })
}

fn takes_instances(flags: Flags) -> bool
    ensures { result ≡ takes_instances (flags_of flags) }
{
    flags.instance_ids && !flags.micro800
}

/// Class 0x6B and an instance.
fn by_instance<'a>(c: &Controller, rest: Rest<'a>, scope: u32) -> Result<Start<'a>, Status>
    ensures { let f = flags_of c.now.flags in let l = left rest.entry in Whatever (start_tables (tables_of c.now.tables))
        (λ t. Begins t f (by_instance t f scope (symbol_instance (object_of l)) (drop 2 l)) result) }
{
    let (object, next) = rest.object().ok_or(Status::PathError)?;
    if object.class != cip::codes::SYMBOL_CLASS {
        return Err(Status::PathError);
    }
    if !takes_instances(c.flags) {
        return Err(Status::PathUnknown);
    }
    let tag = lookup::find_id(c.tables.tags, scope, object.instance);
    found_at(tag, next, Status::PathUnknown)
}

/// The tag of a scope.
fn in_scope<'a>(c: &Controller, rest: Rest<'a>, scope: u32) -> Result<Start<'a>, Status>
    ensures { let f = flags_of c.now.flags in Whatever (start_tables (tables_of c.now.tables))
        (λ t. Begins t f (in_scope t f scope (left rest.entry)) result) }
{
    let (first, next) = rest.segment().ok_or(Status::PathError)?;
    match first {
        Segment::Symbol(name) => {
            let tag = c.tables.find_tag(scope, name);
            found_at(tag, next, Status::PathError)
        }
        _ => by_instance(c, rest, scope),
    }
}

/// The tag of the program of this name.
fn in_program<'a>(c: &Controller, rest: Rest<'a>, name: &[u8]) -> Result<Start<'a>, Status>
    requires { length c.now.tables.programs.now ≤ 16 }
    ensures { let f = flags_of c.now.flags in Whatever (start_tables (tables_of c.now.tables))
        (λ t. Begins t f (in_program t f (program_named t name.now) (left rest.entry)) result) }
{
    let k = c.tables.find_program(name).ok_or(Status::PathError)?;
    in_scope(c, rest, lookup::program_scope(k))
}

/// A program's name without its prefix, and what follows it, if anything does.
fn program_first<'a>(path: Rest<'a>) -> Option<(&'a [u8], Rest<'a>)>
    ensures { Prefixed (left path.entry) result }
{
    let (first, next) = path.segment()?;
    match first {
        Segment::Symbol(name) if !next.is_empty() => Some((path::after_program(name)?, next)),
        _ => None,
    }
}

/// The tag of a path.
pub fn tag_of<'a>(c: &Controller, path: Rest<'a>) -> Result<Start<'a>, Status>
    requires { length c.now.tables.programs.now ≤ 16 }
    ensures lent { let t = tables_of c.now.tables in let f = flags_of c.now.flags in
        Begins t f (resolve t f (left path.entry)) result }
    ensures whatever { let f = flags_of c.now.flags in Whatever (start_tables (tables_of c.now.tables))
        (λ t. Begins t f (resolve t f (left path.entry)) result) }
{
    match program_first(path) {
        Some((name, next)) => in_program(c, next, name),
        None => in_scope(c, path, CONTROLLER_SCOPE),
    }
}
