// A list of attribute numbers: their count in 16 bits, and as many numbers of 16 bits.
ghost use Rattle.std.specs.Prelude.{◌≡◌, ◌≤◌, length, map};
ghost use Rattle.laws.specs.Tests.{every};
ghost use Rattle.definition.specs.Bytes.{counted, u16_at};
ghost use Rattle.definition.specs.Symbols.{is_listed};

// The attributes that a page knows. They are numbers and no enum: a list may name any number, and the reply to an attribute list gives each
// back, known or not.
pub const NAME: u16 = 1;

pub const TYPE: u16 = 2;

pub const ADDRESS: u16 = 3;

pub const OBJECT_ADDRESS: u16 = 5;

pub const CONTROL: u16 = 6;

pub const SIZE: u16 = 7;

pub const LENGTHS: u16 = 8;

pub const ACCESS: u16 = 10;

/// The numbers of a list, two bytes each.
#[derive(Clone, Copy)]
pub struct Numbers<'a> {
    pub pairs: &'a [[u8; 2]],
    pub ghost few: { length pairs.now ≤ 65535 },
}

impl<'a> Numbers<'a> {
    ghost use Rattle.listing.specs.Numbers.{numbers_in, list_of};

    /// The list that a body starts with; none where its count or one of its numbers is missing.
    pub fn read(body: &'a [u8]) -> Option<Numbers<'a>>
        ensures { list_of result ≡ counted body.now }
    {
        let count = usize::from(cip::u16_at(body.get(..2)?, 0));
        let (pairs, _) = body.get(2..2 + 2 * count)?.as_chunks::<2>();
        Some(Numbers { pairs })
    }

    /// Whether a page knows all numbers of a list.
    pub fn all_listed(&self) -> bool
        ensures { result ≡ every is_listed (numbers_in self.now) }
    {
        all_listed(self.pairs)
    }
}

/// Whether a page knows all numbers of a list of any length, two bytes each.
pub fn all_listed(pairs: &[[u8; 2]]) -> bool
    ensures { result ≡ every is_listed (map (λ pair. u16_at pair 0) pairs.now) }
{
    pairs
        .iter()
        .all(|pair| is_listed(u16::from_le_bytes(*pair)))
}

/// Whether an attribute is one that a page knows.
#[tactic(auto, using(laws::proofs::Chain::tests), unfolding(definition::specs::Symbols::is_listed))]
fn is_listed(number: u16) -> bool
    ensures { result ≡ is_listed number }
{
    matches!(
        number,
        NAME | TYPE | ADDRESS | OBJECT_ADDRESS | CONTROL | SIZE | LENGTHS | ACCESS
    )
}
