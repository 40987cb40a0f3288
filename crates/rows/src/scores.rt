// The scores of the rows: the sum of the soft values' magnitudes less twice the cost of the row's prefix.
ghost use Rattle.std.specs.Prelude.{◌≡◌, false, ◌*◌, ◌≤◌, length};
ghost use Rattle.spec.specs.Score.{taken};
ghost use Rattle.spec.specs.Faults.{some};
ghost use Rattle.spec.specs.Refusals.{out_of_range};
ghost use Rattle.laws.specs.Cost.{magnitude};
ghost use Rattle.laws.specs.ScoreCost.{score_from};
ghost use Rattle.rows.specs.Scores.{ScoresFit, ScoresWritten};

use ranges::{magnitude_of, taken_at};

// The sum of the soft values' magnitudes, as they are taken.
pub fn magnitude(soft: &[i16]) -> u32
    requires { (length soft.now ≤ 1024) × (some out_of_range soft.now ≡ false) }
    ensures { result ≡ magnitude (taken soft.now) }
{
    let mut sum: u32 = 0;
    for i in 0..soft.len() {
        sum += magnitude_of(taken_at(soft, i));
    }
    sum
}

// The score of a prefix that has this cost.
pub fn score_of(total: u32, cost: u32) -> i32
    requires { (total ≤ 2096128) × (cost ≤ total) }
    ensures { result ≡ score_from total cost }
{
    total.cast_signed() - (2 * cost).cast_signed()
}

// The scores of count rows, by rank, and 0 behind them.
pub fn write_scores(scores: &mut [i32], costs: &[u32; 32], total: u32, count: usize)
    requires { ScoresFit total count (length scores.old) costs.now }
    ensures { ScoresWritten total count (length scores.old) costs.now scores.new }
{
    scores.fill(0);
    for r in 0..count {
        scores[r] = score_of(total, costs[r]);
    }
}
