// Segment vectors: paths as CIP Volume 1's appendix on segments encodes them, and what the decoder makes of each.
use input::bytes::Hex;
use path::Segment;
use std::io;

/// A segment that starts at a position; a symbol by where its name stands.
fn show(to: &impl Print, segment: Segment, at: usize) -> io::Result<()> {
    match segment {
        Segment::Port => print!(to; " port"),
        Segment::Class(x) => print!(to; " class {x}"),
        Segment::Instance(x) => print!(to; " instance {x}"),
        Segment::Element(x) => print!(to; " element {x}"),
        Segment::Attribute(x) => print!(to; " attribute {x}"),
        Segment::Symbol(name) => {
            print!(to; " symbol at {} of {}", at.saturating_add(2), name.len())
        }
    }
}

#[tactic(auto, using(path::proofs::Forward::step_inside))]
fn segments(to: &impl Print, path: &[u8]) -> io::Result<()> {
    print!(to; "path{}:", Hex(path))?;
    let mut at = 0;
    while let Some(step) = path::segment_at(path, at) {
        show(to, step.segment, at)?;
        at = step.next;
    }
    println!(to; "{}", if at < path.len() { " invalid" } else { " end" })
}

/// Paths as the appendix encodes them, and ones that break it.
pub fn paths(to: &impl Print) -> io::Result<()> {
    segments(to, b"\x20\x06\x24\x01")?;
    segments(to, b"\x20\x05\x24\x02\x30\x01")?;
    segments(to, b"\x21\x00\x00\x03\x25\x00\x02\x01")?;
    segments(to, b"\x26\x00\x04\x03\x02\x01")?;
    segments(to, b"\x28\x09\x29\x00\x34\x12\x2a\x00\x78\x56\x34\x12")?;
    segments(to, b"\x02\x06")?;
    segments(to, b"\x0f\x12\x00\x01")?;
    segments(to, b"\x15\x0f130.151.137.105\x00")?;
    segments(to, b"\x1f\x12\x00\x01\x07\x00")?;
    segments(to, b"\x91\x05Count\x00\x28\x02")?;
    segments(to, b"\x91\x04Rows")?;
    segments(to, b"\x91\x00")?;
    segments(to, b"\x20")?;
    segments(to, b"\x91\x05Coun")?;
    segments(to, b"\x91\x05Count")?;
    segments(to, b"\x23\x01")?;
    segments(to, b"\x2c\x01")?;
    segments(to, b"\x34\x04")?;
    segments(to, b"\x40\x00")?;
    segments(to, b"\x81\x00")
}
