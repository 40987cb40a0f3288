// The prefixes of paths, kept as rows of bytes. To bring them up to a later position, what a path had at the earlier one is copied, and
// only the bits since then are read back from the history.
ghost use Rattle.std.specs.Prelude.{◌≡◌, ◌*◌, ◌≤◌, ◌<◌, length};
ghost use Rattle.rows.specs.PrefixRows.{RenewFits, RowRenewed, RowsRenewed};

use crate::inputs::trace_back;
use slices::copy;

// The prefix at rank r after i positions, at the front of a row of n bytes. The history is at the front of g, past is l * i, and from `kept`
// on, l * n, are the rows of the prefixes of the first `held` ranks after `seen` positions. Where r leads back to a rank that has no row
// there, the path is read back whole: so its row is right whatever that rank is. A live path leads to such a rank only while nothing is
// kept and `seen` is 0, and then there is nothing more to read.
fn renew_row(
    row: &mut [u8],
    g: &[u8],
    l: usize,
    n: usize,
    seen: usize,
    held: usize,
    i: usize,
    past: usize,
    kept: usize,
    r: usize,
)
    requires { RenewFits l n seen held i past kept (length g.now) × (length row.old ≡ n) × (r < 32) }
    ensures { RowRenewed l n seen held i r g.now row.new }
{
    let q = trace_back(row, g, l, seen, i, past, r);
    if q < held {
        let at = kept + n * q;
        copy(&g[at..at + seen], &mut row[..seen]);
        return;
    }
    trace_back(row, g, l, 0, seen, l * seen, q);
}

// The prefixes at the first count ranks after i positions.
pub fn renew_rows(
    rows: &mut [u8],
    g: &[u8],
    l: usize,
    n: usize,
    seen: usize,
    held: usize,
    i: usize,
    past: usize,
    kept: usize,
    count: usize,
)
    requires { RenewFits l n seen held i past kept (length g.now) × (count ≤ l) × (n * count ≤ length rows.old) }
    ensures { RowsRenewed l n seen held i count g.now rows.new }
{
    for r in 0..count {
        let at = n * r;
        renew_row(&mut rows[at..at + n], g, l, n, seen, held, i, past, kept, r);
    }
}
