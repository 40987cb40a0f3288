// The history: for each position and rank, where the path came from and by which bit.
ghost use Rattle.std.specs.Prelude.{◌≡◌, ◌+◌, ◌≤◌, length, get_or};
ghost use Rattle.windows.specs.Op.{Wrote};
ghost use Rattle.positions.specs.History.{note_of};

use live::{entry_bit, entry_parent};

// One entry's note.
fn note_of(code: u64) -> u8
    ensures { result ≡ note_of code }
{
    2 * entry_parent(code) as u8 + entry_bit(code)
}

// The notes of the first count entries, at a place of the byte table.
pub(crate) fn note(b: &mut [u8], at: usize, code: &[u64; 33], count: usize)
    requires { (at + count ≤ length b.old) × (count ≤ 32) × (count ≤ length code.now) }
    ensures { Wrote (λ r. note_of (get_or code.now r 0)) at count b.old b.new }
{
    for r in 0..count {
        b[at + r] = note_of(code[r]);
    }
}
