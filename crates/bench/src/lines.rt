// The lines of document 01's pallet bench, the starred ones too. Its 14 replies at limit 9 are in joined.rt.
use crate::ask;
use crate::controller::Example;
use crate::tally::Tally;
use std::io;

const COUNT: &[u8] = b"\x4C\x04\x91\x05Count\x00\x01\x00";

const NESTED: &[u8] = b"\x0A\x02\x20\x02\x24\x01\x01\x00\x04\x00\x0A";

/// Reads, whole and from offsets on, and requests that are refused.
const READS: [Example; 12] = [
    Example {
        name: "Count",
        request: COUNT,
        limit: 100,
        expected: b"\xCC\x00\x00\x00\xC4\x00\x2A\x00\x00\x00",
    },
    Example {
        name: "Count, limit 9",
        request: COUNT,
        limit: 9,
        expected: b"\xCC\x00\x06\x00\xC4\x00\x2A\x00\x00",
    },
    Example {
        name: "Count, limit 0",
        request: COUNT,
        limit: 0,
        expected: b"\xCC\x00\x06\x00\xC4\x00",
    },
    Example {
        name: "Cell.Run",
        request: b"\x4C\x06\x91\x04Cell\x91\x03Run\x00\x01\x00",
        limit: 100,
        expected: b"\xCC\x00\x00\x00\xC1\x00\x01",
    },
    Example {
        name: "Cell.Run, 2 elements",
        request: b"\x4C\x06\x91\x04Cell\x91\x03Run\x00\x02\x00",
        limit: 100,
        expected: b"\xCC\x00\xFF\x01\x05\x21",
    },
    Example {
        name: "Rows from 0, limit 22",
        request: b"\x52\x03\x91\x04Rows\x0A\x00\x00\x00\x00\x00",
        limit: 22,
        expected: b"\xD2\x00\x06\x00\xC4\x00\x01\x02\x03\x04\x05\x06\x07\x08\x09\x0A\x0B\x0C\x0D\x0E\x0F\x10",
    },
    Example {
        name: "Rows from 16, limit 22",
        request: b"\x52\x03\x91\x04Rows\x0A\x00\x10\x00\x00\x00",
        limit: 22,
        expected: b"\xD2\x00\x06\x00\xC4\x00\x11\x12\x13\x14\x15\x16\x17\x18\x19\x1A\x1B\x1C\x1D\x1E\x1F\x20",
    },
    Example {
        name: "Rows from 32, limit 22",
        request: b"\x52\x03\x91\x04Rows\x0A\x00\x20\x00\x00\x00",
        limit: 22,
        expected: b"\xD2\x00\x00\x00\xC4\x00\x21\x22\x23\x24\x25\x26\x27\x28",
    },
    Example {
        name: "Rows from 40",
        request: b"\x52\x03\x91\x04Rows\x0A\x00\x28\x00\x00\x00",
        limit: 100,
        expected: b"\xD2\x00\xFF\x01\x05\x21",
    },
    Example {
        name: "Rows[9], 2 elements",
        request: b"\x4C\x04\x91\x04Rows\x28\x09\x02\x00",
        limit: 100,
        expected: b"\xCC\x00\xFF\x01\x05\x21",
    },
    Example {
        name: "Rows[10]",
        request: b"\x4C\x04\x91\x04Rows\x28\x0A\x01\x00",
        limit: 100,
        expected: b"\xCC\x00\x05\x00",
    },
    Example {
        name: "empty message",
        request: b"",
        limit: 100,
        expected: b"\x80\x00\x04\x00",
    },
];

/// OR 01 00 00 00, then AND 0F 00 00 00: `Count` is 0B 00 00 00, and no other byte changes.
const MASKED: Example = Example {
    name: "Count, masked write",
    request: b"\x4E\x04\x91\x05Count\x00\x04\x00\x01\x00\x00\x00\x0F\x00\x00\x00",
    limit: 100,
    expected: b"\xCE\x00\x00\x00",
};

/// Envelopes, then pages of symbols. The last is not in document 01: it fixes the bytes of the page that the continued pages are compared with.
const ENVELOPES_AND_SYMBOLS: [Example; 4] = [
    Example {
        name: "envelope in an envelope, limit 12",
        request: NESTED,
        limit: 12,
        expected: b"\x8A\x00\x1E\x00\x01\x00\x04\x00\x8A\x00\x08\x00",
    },
    Example {
        name: "envelope in an envelope, limit 11",
        request: NESTED,
        limit: 11,
        expected: b"\x8A\x00\x11\x00",
    },
    Example {
        name: "attributes 3 and 5 of ID 0xFFFFFFFF",
        request: b"\x55\x04\x20\x6B\x26\x00\xFF\xFF\xFF\xFF\x02\x00\x03\x00\x05\x00",
        limit: 100,
        expected: b"\xD5\x00\x00\x00\xFF\xFF\xFF\xFF\x00\xFF\x0F\x00\xC0\x1F\x00\x00",
    },
    Example {
        name: "names and types of all symbols",
        request: b"\x55\x04\x20\x6B\x26\x00\x00\x00\x00\x00\x02\x00\x01\x00\x02\x00",
        limit: 100,
        expected: b"\xD5\x00\x00\x00\x01\x00\x00\x00\x05\x00Count\xC4\x00\x02\x00\x00\x00\x04\x00Rows\xC4\x20\xFF\xFF\xFF\xFF\x04\x00Cell\x00\x81",
    },
];

/// All of them; a masked write stores, and the others leave tag memory as it was.
pub fn all<P: Print>(t: &mut Tally<P>) -> io::Result<()> {
    for line in READS {
        ask::line(t, line)?;
    }
    let mut after = pallet::MEMORY;
    after[0] = 0x0B;
    ask::storing(t, MASKED, &after)?;
    for line in ENVELOPES_AND_SYMBOLS {
        ask::line(t, line)?;
    }
    Ok(())
}
