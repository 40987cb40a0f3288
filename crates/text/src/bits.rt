// Bits as text, written into a buffer from a place on.
ghost use Rattle.std.specs.Prelude.{◌≡◌, ◌+◌, ◌≤◌, length};
ghost use Rattle.place.specs.Put.{Put};
ghost use Rattle.text.specs.BitText.{bit_byte, bit_text};

fn bit_byte(bit: u8) -> u8
    ensures { result ≡ bit_byte bit }
{
    if bit == 0 { b'0' } else { b'1' }
}

// `0` or `1` for each bit. Returns the place behind them.
pub fn put_bits(out: &mut [u8], at: usize, bits: &[u8]) -> usize
    requires { at + length bits.now ≤ length out.old }
    ensures { (Put at (bit_text bits.now) out.old result out.new) × (result ≤ at + length bits.now) }
{
    for (i, bit) in bits.iter().enumerate() {
        out[at + i] = bit_byte(*bit);
    }
    at + bits.len()
}
