// What every crate does to the slices that are lent: one value from a place to the end; a copy; the product that measures rows.
#![tactic(auto)]

ghost use Rattle.std.specs.Prelude.{◌≡◌, ◌*◌, ◌≤◌, length, replicate};
ghost use Rattle.slices.specs.Fill.{filled_from};

// One value from a place to the end; nothing where the place lies at the end or past it.
pub fn fill_from<T: Copy>(s: &mut [T], from: usize, value: T)
    ensures { s.new ≡ filled_from value from s.old }
{
    for i in from..s.len() {
        s[i] = value;
    }
}

// All of `from`, into a slice that is as long. By its places, since `copy_from_slice` would have the library for C ask its host for memmove.
pub fn copy(from: &[u8], to: &mut [u8])
    requires { length to.old ≡ length from.now }
    ensures { to.new ≡ from.now }
{
    for i in 0..from.len() {
        to[i] = from[i];
    }
}

// The product of two numbers that are not large: how many places a number of rows takes.
pub fn times(a: usize, b: usize) -> usize
    requires { (a ≤ 65536) × (b ≤ 65536) }
    ensures { (result ≡ a * b) × (result ≤ 4294967296) }
{
    a * b
}

// Both tables set to 0 to their last place.
pub fn clear_tables(t: &mut [u32], b: &mut [u8])
    ensures { (t.new ≡ replicate (length t.old) 0) × (b.new ≡ replicate (length b.old) 0) }
{
    t.fill(0);
    b.fill(0);
}
