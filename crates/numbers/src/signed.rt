// Signed numbers of 32 bits, in two's complement.
ghost use Rattle.std.specs.Prelude.{◌≡◌, ◌+◌, ◌<◌, length};
ghost use Rattle.spec.specs.Record.{four_at, signed32};
ghost use Rattle.spec.specs.RecordOf.{thirty_two_bits};

use crate::four;

pub fn signed_four(bytes: &[u8], at: usize) -> i32
    requires { at + 3 < length bytes.now }
    ensures { result ≡ signed32 (four_at bytes.now at) }
{
    four(bytes, at).cast_signed()
}

pub fn thirty_two_bits(y: i32) -> u32
    ensures { result ≡ thirty_two_bits y }
{
    y.cast_unsigned()
}
