// Where the parts of a record lie.
ghost use Rattle.std.specs.Prelude.{◌≡◌, ◌+◌, ◌*◌, ◌^◌, ◌≤◌};
ghost use Rattle.spec.specs.Code.{map_bytes};
ghost use Rattle.spec.specs.ResultRecord.{ceiling_at, scores_at};

use code::size;
use slices::times;

// The map of fields, m, the row count, n, and where the scores and the packed rows begin.
#[derive(Clone, Copy)]
pub struct Layout {
    pub fields: u32,
    pub m: u32,
    pub rows: usize,
    pub n: usize,
    pub scores: usize,
    pub packed: usize,
}

pub(crate) fn ceiling_at(fields: u32) -> usize
    ensures { (result ≡ ceiling_at fields) × (result ≤ 7) }
{
    3 + 4 * ((fields % 2) as usize)
}

pub fn scores_at(fields: u32) -> usize
    ensures { (result ≡ scores_at fields) × (result ≤ 11) }
{
    ceiling_at(fields) + 4 * ((fields / 2 % 2) as usize)
}

// How long a record of this map, m and row count is.
pub fn length_of(fields: u32, m: u32, rows: usize) -> usize
    requires { (m ≤ 10) × (rows ≤ 32) }
    ensures { (result ≡ scores_at fields + 4 * rows + rows * map_bytes (2 ^ m)) × (result ≤ 4235) }
{
    let n = size(m);
    let packed = times(rows, (n + 7) / 8);
    scores_at(fields) + 4 * rows + packed
}
