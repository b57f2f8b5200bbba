// P2: pages and attributes of symbols with long names.
use crate::asked;
use crate::plant::NO_ROWS;
use model::{Controller, Tables};
use std::io;

/// A page of all symbols of the controller from ID 0 on, with their names.
const FROM_START: [u8; 10] = [0x55, 0x02, 0x20, 0x6B, 0x24, 0x00, 0x01, 0x00, 0x01, 0x00];

/// The same from ID 6 on.
const FROM_SIX: [u8; 10] = [0x55, 0x02, 0x20, 0x6B, 0x24, 0x06, 0x01, 0x00, 0x01, 0x00];

/// Attribute 0x0D of the symbol with ID 9.
const ATTRIBUTE: [u8; 10] = [0x03, 0x02, 0x20, 0x6B, 0x24, 0x09, 0x01, 0x00, 0x0D, 0x00];

/// The hall's program of 36 letters, behind its prefix.
const HALL_NAMES: [u8; 44] = *b"Program:BottlingHallNorthFillerAndCapperLine";

/// A task without a name of its own, and a program of 40 letters.
const TASK_NAMES: [u8; 53] = *b"Task:Program:qqqqqqqqqqqqqqqqqqqqqqqqqqqqqqqqqqqqqqqq";

/// Sends a request to a controller with these tables and shows it and its reply.
fn send(to: &impl Print, tables: Tables, request: &[u8], limit: usize) -> io::Result<()> {
    let c = Controller {
        tables,
        flags: pallet::FLAGS,
    };
    let mut memory = [0; 4];
    let mut buf = [0; 128];
    let told = logix::entry::message(&c, &mut memory, request, limit, &mut buf);
    asked::show(to, request, limit, told, &buf)
}

/// A program of 36 letters and its other symbol, ID 9; no tag.
fn hall(to: &impl Print, request: &[u8], limit: usize) -> io::Result<()> {
    let tables = Tables {
        programs: &[[8, 36]],
        others: &[[0, 0, 44, 9, 0x1068]],
        names: &HALL_NAMES,
        ..NO_ROWS
    };
    send(to, tables, request, limit)
}

pub fn bottling_hall(to: &impl Print) -> io::Result<()> {
    hall(to, &FROM_START, 54)?;
    hall(to, &FROM_START, 53)?;
    hall(to, &ATTRIBUTE, 100)
}

/// `Task:`, ID 3; the tag `Count`, ID 5; `Program:` and 40 letters, ID 9.
fn three(to: &impl Print, request: &[u8], limit: usize) -> io::Result<()> {
    let tables = Tables {
        tags: &[[0, 0, 5, 5, 0xC4, 0, 0, 0, 1, 0, 0, 0]],
        others: &[[0, 0, 5, 3, 0x1070], [0, 5, 48, 9, 0x1068]],
        names: &TASK_NAMES,
        tag_names: b"Count",
        ..NO_ROWS
    };
    send(to, tables, request, limit)
}

pub fn tasks(to: &impl Print) -> io::Result<()> {
    three(to, &FROM_START, 58)?;
    three(to, &FROM_SIX, 58)?;
    three(to, &FROM_SIX, 57)
}
