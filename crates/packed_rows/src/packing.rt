// Bits into packed bytes.
ghost use Rattle.std.specs.Prelude.{◌≡◌, ◌+◌, ◌*◌, ◌≤◌, ltb, length};
ghost use Rattle.spec.specs.Bits.{Bits, packed};
ghost use Rattle.spec.specs.Faults.{some};
ghost use Rattle.place.specs.Put.{Put};
ghost use Rattle.laws.specs.PackedRows.{packed_each};

// A byte that is no bit. All bytes are looked at, and none ends the loop, as one would end `any`: so it runs in vector instructions.
pub fn some_not_bit(bits: &[u8]) -> bool
    ensures { result ≡ some (ltb 1) bits.now }
{
    let mut found = false;
    for b in bits {
        found |= *b > 1;
    }
    found
}

// At most eight bits as a number, the first the lowest.
fn packed_bits(bits: &[u8]) -> u8
    requires { (Bits bits.now) × (length bits.now ≤ 8) }
    ensures { result ≡ packed bits.now }
{
    let mut x = 0;
    for i in (0..bits.len()).rev() {
        x = 2 * x + bits[i];
    }
    x
}

// So many bytes of w bits each, from a place of `out` on. Returns the place behind them.
pub fn put_packed(out: &mut [u8], at: usize, bits: &[u8], w: usize, count: usize) -> usize
    requires { (Bits bits.now) × (w ≤ 8) × (length bits.now ≡ count * w) × (at + count ≤ length out.old) }
    ensures { (Put at (packed_each w count bits.now) out.old result out.new) × (result ≡ at + count) }
{
    let end = at + count;
    let mut left = bits;
    for x in out[at..end].iter_mut() {
        let (first, rest) = left.split_at(w);
        *x = packed_bits(first);
        left = rest;
    }
    end
}
