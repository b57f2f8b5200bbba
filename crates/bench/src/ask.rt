// A request to document 01's pallet bench, and a line of the bench.
ghost use Rattle.definition.specs.Entry.{entry as entry_of};
ghost use Rattle.definition.specs.Pallet.{pallet, pallet_flags};
ghost use Rattle.bench.specs.Sent.{Sends};

use crate::controller;
use crate::controller::{Example, Tags};
use crate::tally::Tally;
use pallet::MEMORY;
use std::io;

const TAGS: Tags<'static> = Tags {
    rows: &pallet::TAGS,
    names: &pallet::TAG_NAMES,
};

/// The bench's reply to a request: its length.
pub fn send(memory: &mut [u8], request: &[u8], limit: usize, buf: &mut [u8]) -> usize
    ensures { Sends (entry_of pallet pallet_flags memory.old request.now limit buf.old)
        result buf.new memory.new }
{
    controller::length_of(pallet::message(memory, request, limit, buf))
}

/// A line of the bench that leaves tag memory as it was.
pub fn line<P: Print>(t: &mut Tally<P>, line: Example) -> io::Result<()> {
    let mut memory = MEMORY;
    TAGS.compare(t, &mut memory, line)?;
    if memory == MEMORY {
        return Ok(());
    }
    t.bytes("  tag memory after it", &memory, &MEMORY)
}

/// A line of the bench that says what tag memory is after it.
pub fn storing<P: Print>(t: &mut Tally<P>, line: Example, after: &[u8]) -> io::Result<()> {
    let mut memory = MEMORY;
    TAGS.compare(t, &mut memory, line)?;
    t.bytes("  tag memory after it", &memory, after)
}
