// All positions of a block, from the empty prefix to the stop position.
ghost use Rattle.std.specs.Prelude.{length};
ghost use Rattle.positions.specs.Running.{Runs, RunFits};

use crate::own::{Kept, own_bits};
use crate::position::position;
use code::run_end;
use live::Live;

// The live list at stop position p. The bytes are 0 and the words are those of the start. What `rows` holds is of no account, before and
// after: the paths' prefixes are put together there.
pub fn positions(
    t: &mut [u32],
    b: &mut [u8],
    rows: &mut [u8],
    map: &[u8],
    pairs: &[u8],
    p: usize,
    deep: usize,
    l: usize,
    h: usize,
    n: usize,
    arikan: bool,
) -> Live
    requires { RunFits deep l h n p (length t.old) (length b.old) (length rows.old) map.now pairs.now }
    ensures { Runs arikan deep l h p map.now pairs.now t.old b.old result t.new b.new }
{
    let mut slots = [0u8; 1024];
    let mut s = Live::start();
    let mut from = 0;
    let mut kept = Kept { seen: 0, held: 0 };
    for i in 0..p {
        let to = run_end(pairs, from, i);
        let mut bits = [0u8; 32];
        kept = own_bits(
            b, rows, pairs, from, to, i, kept, l, h, n, s.count, &mut bits,
        );
        s = position(t, b, &mut slots, map, &bits, s, i, deep, l, h, n, arikan);
        from = to;
    }
    s
}
