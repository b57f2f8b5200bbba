// The numbers of the wire: services, classes and type codes. Statuses are in `lib.rt`, the first bytes of segments in `path::table`; a path that is
// sent as it is stands where it is sent.

/// The longest request, and the largest limit of a reply.
pub const MOST: usize = 65535;

/// Get Attribute List.
pub const ATTRIBUTE_LIST: u8 = 0x03;
/// Multiple Service Packet: the envelope.
pub const ENVELOPE: u8 = 0x0A;
/// Read Tag; of a template, Read Template.
pub const READ: u8 = 0x4C;
/// Write Tag.
pub const WRITE: u8 = 0x4D;
/// Read Modify Write Tag.
pub const WRITE_MASKED: u8 = 0x4E;
/// Read Tag Fragmented: a read that brings an offset.
pub const READ_FRAGMENTED: u8 = 0x52;
/// Write Tag Fragmented.
pub const WRITE_FRAGMENTED: u8 = 0x53;
/// Get Instance Attribute List: a page of symbols.
pub const SYMBOL_PAGE: u8 = 0x55;

/// The message router, to which envelopes go.
pub const ROUTER_CLASS: u32 = 0x02;

pub const ROUTER_INSTANCE: u32 = 1;
/// Symbol objects.
pub const SYMBOL_CLASS: u32 = 0x6B;
/// Template objects.
pub const TEMPLATE_CLASS: u32 = 0x6C;

pub const BOOL: u32 = 0xC1;

pub const REAL: u32 = 0xCA;

pub const LREAL: u32 = 0xCB;
/// 32 bits; an array of BOOL is one of these.
pub const DWORD: u32 = 0xD3;
/// The type of a structure's value; its handle follows.
pub const STRUCTURE_CODE: u32 = 0x02A0;
