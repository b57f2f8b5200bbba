// The names of atomic types, and of an access.
use model::columns::{NO_ACCESS, READ_ONLY};

/// An atomic type's name; none of a code that has none.
pub fn atomic(code: u32) -> Option<&'static str> {
    Some(match code {
        0xC1 => "BOOL",
        0xC2 => "SINT",
        0xC3 => "INT",
        0xC4 => "DINT",
        0xC5 => "LINT",
        0xC6 => "USINT",
        0xC7 => "UINT",
        0xC8 => "UDINT",
        0xC9 => "ULINT",
        0xCA => "REAL",
        0xCB => "LREAL",
        0xD1 => "BYTE",
        0xD2 => "WORD",
        0xD3 => "DWORD",
        0xD4 => "LWORD",
        _ => return None,
    })
}

/// 1 is an access that nothing refuses, as 0 is. The number is a row's, which may be any.
pub fn access(n: u32) -> &'static str {
    match n {
        0 => "read/write",
        1 => "read/write (1)",
        READ_ONLY => "read only",
        NO_ACCESS => "none",
        _ => "?",
    }
}
