// The input rows: each path's prefix, read back from the history, and 0 behind it.
ghost use Rattle.std.specs.Prelude.{◌≡◌, ◌+◌, ◌*◌, ◌≤◌, ◌<◌, length};
ghost use Rattle.rows.specs.Trace.{Fits, LedBack, InputsWritten};

// Reads the path at rank r after p positions back to position `from`: its bits from there on go to their places of a row, and the rank
// that it had then is returned. past is l * p.
pub(crate) fn trace_back(
    row: &mut [u8],
    history: &[u8],
    l: usize,
    from: usize,
    p: usize,
    past: usize,
    r: usize,
) -> usize
    requires { (from ≤ p) × (p ≤ length row.old) × (past ≡ l * p) × (past + 32 ≤ length history.now) × (r < 32) }
    ensures { LedBack l from p r history.now row.old result row.new }
{
    let mut base = past;
    let mut rank = r;
    for i in (from..p).rev() {
        base -= l;
        let x = history[base + rank];
        row[i] = x % 2;
        rank = usize::from(x / 2 % 32);
    }
    rank
}

// The input rows of count paths after p positions, by rank, and 0 behind them.
pub fn write_inputs(
    inputs: &mut [u8],
    history: &[u8],
    l: usize,
    p: usize,
    past: usize,
    n: usize,
    count: usize,
)
    requires { Fits l p past n count (length inputs.old) (length history.now) }
    ensures { InputsWritten l p n count (length inputs.old) history.now inputs.new }
{
    inputs.fill(0);
    for r in 0..count {
        let at = n * r;
        trace_back(&mut inputs[at..at + n], history, l, 0, p, past, r);
    }
}
