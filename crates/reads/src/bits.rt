// Bits of a byte: their values, and a bit read as a BOOL.
ghost use Rattle.std.specs.Prelude.{◌≡◌, ◌^◌, ◌<◌};
ghost use Rattle.definition.specs.Read.{bit_of};

/// The value of bit k. That it is one of a byte's is known where a target's bit was found not to be 8, and no type of a number says it.
pub fn bit_value(k: u32) -> u8
    requires { k < 8 }
    ensures { result ≡ 2 ^ k }
{
    1 << k
}

/// Bit k of a byte, as the BOOL that it reads as.
pub fn bit_of(b: u8, k: u32) -> u8
    requires { k < 8 }
    ensures { result ≡ bit_of b k }
{
    b >> k & 1
}
