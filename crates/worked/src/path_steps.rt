// P5: paths and their segments, each with the table's entry of its first byte and the position behind it.
use input::bytes::Hex;
use path::table::{First, Format, Logical};
use path::{Segment, Step, table};
use std::io;
use wording::name::Signs;

/// The number of a first byte's entry: four for each kind, in the order of the table's types.
fn number_of(entry: Option<First>) -> u32 {
    match entry {
        None => 0,
        Some(First::Port { numbered, sized }) => 4 + 2 * u32::from(numbered) + u32::from(sized),
        Some(First::Logical(logical, format)) => {
            let kind = match logical {
                Logical::Class => 8,
                Logical::Instance => 12,
                Logical::Element => 16,
                Logical::Attribute => 20,
            };
            kind + match format {
                Format::Bits8 => 0,
                Format::PadAnd16 => 1,
                Format::PadAnd32 => 2,
                Format::Reserved => 3,
            }
        }
        Some(First::Symbol) => 24,
    }
}

/// Says the segment that starts at a position.
fn step(to: &impl Print, at: usize, step: Step) -> io::Result<()> {
    match step.segment {
        Segment::Port => print!(to; " port")?,
        Segment::Class(x) => print!(to; " class 0x{x:x}")?,
        Segment::Instance(x) => print!(to; " instance 0x{x:x}")?,
        Segment::Element(x) => print!(to; " element 0x{x:x}")?,
        Segment::Attribute(x) => print!(to; " attribute 0x{x:x}")?,
        Segment::Symbol(name) => {
            let start = at.saturating_add(2);
            print!(to;
                " symbol \"{}\", start {start}, length {}",
                Signs(name),
                name.len()
            )?
        }
    }
    print!(to; ", next {}", step.next)
}

/// Says a path and its segments, up to one that is none.
#[tactic(auto, using(path::proofs::Forward::step_inside))]
fn show(to: &impl Print, path: &[u8]) -> io::Result<()> {
    print!(to; "path{}", Hex(path))?;
    let mut at = 0;
    while let Some(first) = path.get(at) {
        print!(to; "; entry {}:", number_of(table::first_of(*first)))?;
        let Some(found) = path::segment_at(path, at) else {
            return println!(to; " none");
        };
        step(to, at, found)?;
        at = found.next;
    }
    println!(to;)
}

/// Logical segments in the three formats; a pad holds anything.
pub fn taken(to: &impl Print) -> io::Result<()> {
    show(to, &[0x20, 0x6B])?;
    show(to, &[0x21, 0xFF, 0x6B, 0x00])?;
    show(to, &[0x22, 0x00, 0x6B, 0x00, 0x00, 0x00])?;
    show(to, &[0x2A, 0x00, 0x01, 0x00, 0x00, 0x80])?;
    show(to, &[0x31, 0x00, 0x07, 0x00])
}

/// The reserved format, logical types that are not taken, and values cut short.
pub fn refused(to: &impl Print) -> io::Result<()> {
    show(to, &[0x23, 0x00, 0x01, 0x00, 0x00, 0x00])?;
    show(to, &[0x24, 0x01, 0x2B, 0x07])?;
    show(to, &[0x27, 0x00])?;
    show(to, &[0x33, 0x00])?;
    show(to, &[0x2C, 0x01])?;
    show(to, &[0x2F, 0x00, 0x01, 0x00])?;
    show(to, &[0x3C, 0x01])?;
    show(to, &[0x21, 0x00, 0x6B])?;
    show(to, &[0x22, 0x00, 0x6B, 0x00, 0x00])?;
    show(to, &[0x20])
}

/// Symbols with their pad, and first bytes that are none.
pub fn symbols(to: &impl Print) -> io::Result<()> {
    show(to, &[0x91, 0x03, 0x52, 0x75, 0x6E, 0xAA])?;
    show(to, &[0x91, 0x03, 0x52, 0x75, 0x6E])?;
    show(to, &[0x91, 0x00])?;
    show(to, &[0x90, 0x00])?;
    show(to, &[0x92, 0x00])?;
    show(to, &[0x60, 0x01])
}

/// Ports, in their own steps.
pub fn ports(to: &impl Print) -> io::Result<()> {
    show(to, &[0x1F, 0x34, 0x12, 0x01, 0x07, 0x00])?;
    show(to, &[0x01, 0x00])
}
