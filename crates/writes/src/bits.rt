// A write of one bit of a byte.
ghost use Rattle.std.specs.Prelude.{◌≡◌, [], ◌<◌, length};
ghost use Rattle.definition.specs.Write.{with_bit, write_bit};
ghost use Rattle.model.specs.Tables.{target_of};
ghost use Rattle.writes.specs.Storing.{Stores, fields_as};

use crate::values::Fields;
use cip::Status;
use cip::codes::BOOL;
use model::Target;
use reads::bits::bit_value;

/// A byte with one bit of it set, by any nonzero value, or cleared.
#[tactic(auto, using(laws::proofs::Chain::chain), unfolding(definition::specs::Write::with_bit))]
fn with_bit(b: u8, k: u32, value: u8) -> u8
    requires { k < 8 }
    ensures { result ≡ with_bit b k value }
{
    if value == 0 {
        return b & !bit_value(k);
    }
    b | bit_value(k)
}

/// A write of one bit; the offset that 0x53 brings is ignored.
#[tactic(auto, using(crate::proofs::Storing::stores), unfolding(definition::specs::Write::write_bit))]
pub fn write_bit(memory: &mut [u8], g: Target, w: &Fields) -> Result<(), Status>
    requires { (g.start < length memory.old) × (g.bit < 8) }
    ensures { Stores (write_bit memory.old (target_of g []) (fields_as w.now)) memory.old result memory.new }
{
    if w.ty != BOOL {
        return Err(Status::WrongType);
    }
    if w.elements != 1 {
        return Err(Status::BeyondEnd);
    }
    match w.value {
        [] => Err(Status::TooShort),
        [value] => {
            memory[g.start] = with_bit(memory[g.start], g.bit, *value);
            Ok(())
        }
        _ => Err(Status::TooLong),
    }
}
