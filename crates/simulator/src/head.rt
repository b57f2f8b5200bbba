// The head of a table image: the flags, the rows of each table and the bytes of each store. It has a file of its own, since the definitions that
// `image` cites name it.
ghost use Rattle.std.specs.Prelude.{◌≤◌};

/// No count is above what T1 allows: each row has a name of 40 bytes at most, and another symbol's may have a prefix of 8 before it.
#[derive(Clone, Copy)]
pub struct Head {
    pub flags: u32,
    pub structures: usize,
    pub members: usize,
    pub programs: usize,
    pub tags: usize,
    pub others: usize,
    pub names: usize,
    pub tag_names: usize,
    pub templates: usize,
    pub memory: usize,
    pub ghost few_rows: { (structures ≤ 64) × (members ≤ 512) × (programs ≤ 16) × (tags ≤ 1024) × (others ≤ 64) },
    pub ghost few_bytes: { (names ≤ 26752) × (tag_names ≤ 40960) × (templates ≤ 65536) × (memory ≤ 65536) },
}
