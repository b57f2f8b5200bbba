// What the first byte of a segment says: a constant table of 256 entries, one for each byte.
ghost use Rattle.std.specs.Prelude.{◌≡◌};
ghost use Rattle.path.specs.First.{first_of};

/// What a segment's first byte begins.
#[derive(Clone, Copy)]
pub enum First {
    /// A port: whether 16 bits with its number follow, and whether its link has its size.
    Port { numbered: bool, sized: bool },
    /// A logical segment, by its logical type and its format.
    Logical(Logical, Format),
    /// The ANSI extended symbol.
    Symbol,
}

/// The logical types that are taken.
#[derive(Clone, Copy)]
pub enum Logical {
    Class,
    Instance,
    Element,
    Attribute,
}

/// How a logical segment's value is written.
#[derive(Clone, Copy)]
pub enum Format {
    Bits8,
    PadAnd16,
    PadAnd32,
    Reserved,
}

// Four first bytes each, which differ in bits 1 and 0.

/// No segment that is taken.
const NONE: [Option<First>; 4] = [None, None, None, None];

/// A logical type in its four formats; a macro, since a constant's value can call no function.
macro_rules! formats {
    ($logical:ident) => {
        [
            Some(First::Logical(Logical::$logical, Format::Bits8)),
            Some(First::Logical(Logical::$logical, Format::PadAnd16)),
            Some(First::Logical(Logical::$logical, Format::PadAnd32)),
            Some(First::Logical(Logical::$logical, Format::Reserved)),
        ]
    };
}

const CLASS: [Option<First>; 4] = formats!(Class);

const INSTANCE: [Option<First>; 4] = formats!(Instance);

const ELEMENT: [Option<First>; 4] = formats!(Element);

const ATTRIBUTE: [Option<First>; 4] = formats!(Attribute);

const LINK: Option<First> = Some(First::Port {
    numbered: false,
    sized: false,
});

const SIZE_AND_LINK: Option<First> = Some(First::Port {
    numbered: false,
    sized: true,
});

const NUMBER_AND_LINK: Option<First> = Some(First::Port {
    numbered: true,
    sized: false,
});

const NUMBER_SIZE_AND_LINK: Option<First> = Some(First::Port {
    numbered: true,
    sized: true,
});

/// Ports whose link is one byte.
const PORT: [Option<First>; 4] = [LINK, LINK, LINK, LINK];

/// The last is port 15, whose number follows.
const PORT_15: [Option<First>; 4] = [LINK, LINK, LINK, NUMBER_AND_LINK];

/// Ports whose link has its size.
const SIZED: [Option<First>; 4] = [SIZE_AND_LINK, SIZE_AND_LINK, SIZE_AND_LINK, SIZE_AND_LINK];

/// The last is port 15, whose number follows.
const SIZED_15: [Option<First>; 4] = [
    SIZE_AND_LINK,
    SIZE_AND_LINK,
    SIZE_AND_LINK,
    NUMBER_SIZE_AND_LINK,
];

/// The second, 0x91, is the symbol.
const SYMBOL: [Option<First>; 4] = [None, Some(First::Symbol), None, None];

/// A row for each segment type (bits 7 to 5), in it a name for each logical type (bits 4 to 2), under which stand the four formats (bits 1 and 0).
static FIRST_BYTES: [[[Option<First>; 4]; 8]; 8] = [
    // 0x00, port: bit 4 says that the link has its size, bits 3 to 0 are the port's number
    [PORT, PORT, PORT, PORT_15, SIZED, SIZED, SIZED, SIZED_15],
    // 0x20, logical: connection points, special segments and services are not taken
    [CLASS, INSTANCE, ELEMENT, NONE, ATTRIBUTE, NONE, NONE, NONE],
    // 0x40, network
    [NONE, NONE, NONE, NONE, NONE, NONE, NONE, NONE],
    // 0x60, symbolic
    [NONE, NONE, NONE, NONE, NONE, NONE, NONE, NONE],
    // 0x80, data: the ANSI extended symbol
    [NONE, NONE, NONE, NONE, SYMBOL, NONE, NONE, NONE],
    // 0xA0 and 0xC0, data types
    [NONE, NONE, NONE, NONE, NONE, NONE, NONE, NONE],
    [NONE, NONE, NONE, NONE, NONE, NONE, NONE, NONE],
    // 0xE0, reserved
    [NONE, NONE, NONE, NONE, NONE, NONE, NONE, NONE],
];

/// The entry of a first byte: what it begins, if it begins a segment that is taken.
pub fn first_of(b: u8) -> Option<First>
    ensures { result ≡ first_of b }
{
    let segment_type = b / 0x20;
    let logical_type = b / 4 % 8;
    let format = b % 4;
    FIRST_BYTES[segment_type as usize][logical_type as usize][format as usize]
}
