// A soft value: two bytes, low byte first, read as a signed number.
ghost use Rattle.std.specs.Prelude.{◌≡◌, ◌+◌, ◌<◌, length};
ghost use Rattle.spec.specs.Record.{two_at, signed16};

pub fn soft_value(bytes: &[u8], at: usize) -> i16
    requires { at + 1 < length bytes.now }
    ensures { result ≡ signed16 (two_at bytes.now at) }
{
    i16::from_le_bytes([bytes[at], bytes[at + 1]])
}
