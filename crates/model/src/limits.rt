// T1: how many rows a table may have, and how many bytes tag memory or the template store.

pub const STRUCTURES: usize = 64;

pub const MEMBERS: usize = 512;

pub const PROGRAMS: usize = 16;

pub const TAGS: usize = 1024;

pub const OTHERS: usize = 64;

/// Of tag memory, and of the template store.
pub const BYTES: usize = 65536;
