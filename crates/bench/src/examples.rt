// The published examples of Rockwell's 1756-PM020, "Logix 5000 Controllers Data Access", as recalled: no copy of the paper was at hand.
use crate::controller::Example;
use crate::paper::{MEMORY, TAGS};
use crate::tally::Tally;
use std::io;

const READ: Example = Example {
    name: "1756-PM020, read rate",
    request: b"\x4C\x03\x91\x04rate\x01\x00",
    limit: 100,
    expected: b"\xCC\x00\x00\x00\xC4\x00\x16\x02\x00\x00",
};

const WRITE: Example = Example {
    name: "1756-PM020, write CartonSize",
    request: b"\x4D\x06\x91\x0ACartonSize\xC4\x00\x01\x00\x0E\x00\x00\x00",
    limit: 100,
    expected: b"\xCD\x00\x00\x00",
};

const MASKED_WRITE: Example = Example {
    name: "1756-PM020, masked write ControlWord",
    request: b"\x4E\x07\x91\x0BControlWord\x00\x04\x00\x04\x00\x00\x00\xDF\xFF\xFF\xFF",
    limit: 100,
    expected: b"\xCE\x00\x00\x00",
};

const ENVELOPE: Example = Example {
    name: "1756-PM020, envelope of two reads",
    request: b"\x0A\x02\x20\x02\x24\x01\x02\x00\x06\x00\x12\x00\x4C\x04\x91\x05parts\x00\x01\x00\x4C\x07\x91\x0BControlWord\x00\x01\x00",
    limit: 100,
    expected: b"\x8A\x00\x00\x00\x02\x00\x06\x00\x10\x00\xCC\x00\x00\x00\xC4\x00\x2A\x00\x00\x00\xCC\x00\x00\x00\xC4\x00\xDC\x01\x00\x00",
};

/// Each over what the ones before it left in tag memory: the reads see what the writes before them stored, 14, and bit 2 set, bit 5 cleared.
pub fn all<P: Print>(t: &mut Tally<P>) -> io::Result<()> {
    let mut memory = MEMORY;
    TAGS.compare(t, &mut memory, READ)?;
    TAGS.compare(t, &mut memory, WRITE)?;
    TAGS.compare(t, &mut memory, MASKED_WRITE)?;
    t.bytes(
        "  tag memory after both",
        &memory,
        b"\x16\x02\x00\x00\x0E\x00\x00\x00\xDC\x01\x00\x00\x2A\x00\x00\x00",
    )?;
    TAGS.compare(t, &mut memory, ENVELOPE)
}
