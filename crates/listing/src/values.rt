// The value of an attribute, and its bytes.
ghost use Rattle.std.specs.Prelude.{◌≡◌, ◌+◌, ◌≤◌, length};
ghost use Rattle.laws.specs.Put.{put};
ghost use Rattle.definition.specs.Symbols.{three32};
ghost use Rattle.cip.specs.Writes.{Written};
ghost use Rattle.listing.specs.Values.{value_bytes, reference};

/// An attribute's value by its layout.
#[derive(Clone, Copy)]
pub enum Value<'a> {
    Byte(u8),
    Short(u16),
    Long(u32),
    Lengths([u32; 3]),
    /// A text, behind the number of its bytes.
    Name(&'a [u8]),
    /// A program, by the instance of its object.
    Reference(u16),
}

/// A path of three words: class 0x68, and an instance of 16 bits, which follows.
const PROGRAM_PATH: [u8; 5] = [0x03, 0x20, 0x68, 0x25, 0x00];

impl<'a> Value<'a> {
    /// The number of the value's bytes.
    pub fn size(&self) -> usize
        requires { length (value_bytes self.now) ≤ 4294967297 }
        ensures { result ≡ length (value_bytes self.now) }
    {
        match *self {
            Value::Byte(_) => 1,
            Value::Short(_) => 2,
            Value::Long(_) => 4,
            Value::Lengths(_) => 12,
            Value::Name(name) => 2 + name.len(),
            Value::Reference(_) => 7,
        }
    }

    /// Writes the value's bytes; returns their number.
    pub fn put(&self, buf: &mut [u8], at: usize) -> usize
        requires { at + length (value_bytes self.now) ≤ length buf.old }
        ensures { Written at (value_bytes self.now) buf.old result buf.new }
    {
        match *self {
            Value::Byte(x) => {
                cip::put_u8(buf, at, x);
                1
            }
            Value::Short(x) => {
                cip::put_u16(buf, at, x);
                2
            }
            Value::Long(x) => {
                cip::put_u32(buf, at, x);
                4
            }
            Value::Lengths(lengths) => {
                put_lengths(buf, at, lengths);
                12
            }
            Value::Name(name) => {
                cip::put_u16(buf, at, cip::low16(name.len()));
                cip::copy_into(buf, at + 2, name);
                2 + name.len()
            }
            Value::Reference(instance) => {
                put_reference(buf, at, instance);
                7
            }
        }
    }
}

fn put_lengths(buf: &mut [u8], at: usize, lengths: [u32; 3])
    requires { at + 12 ≤ length buf.old }
    ensures { buf.new ≡ put buf.old at (three32 lengths) }
{
    cip::put_u32(buf, at, lengths[0]);
    cip::put_u32(buf, at + 4, lengths[1]);
    cip::put_u32(buf, at + 8, lengths[2]);
}

fn put_reference(buf: &mut [u8], at: usize, instance: u16)
    requires { at + 7 ≤ length buf.old }
    ensures { buf.new ≡ put buf.old at (reference instance) }
{
    cip::copy_into(buf, at, &PROGRAM_PATH);
    cip::put_u16(buf, at + 5, instance);
}
