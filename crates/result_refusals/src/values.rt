// Refusal 22: scores that rise, a present frame number 0, a present ceiling that is not above the first score.
ghost use Rattle.std.specs.Prelude.{◌≡◌};
ghost use Rattle.spec.specs.Faults.{first};
ghost use Rattle.spec.specs.ResultRecord.{rising, result_scores, zero_frame, low_ceiling, result_value_faults};
ghost use Rattle.refusals.specs.Number.{refused};

use refusals::Refusal;
use result_fields::{ResultRecord, scores_rise};

fn rising(given: ResultRecord<'_>) -> bool
    ensures { result ≡ rising (result_scores given.entry.bytes.now) }
{
    scores_rise(given.at.rows, |i| given.score(i))
}

fn zero_frame(given: ResultRecord<'_>) -> bool
    ensures { result ≡ zero_frame given.entry.bytes.now }
{
    given.at.fields % 2 == 1 && given.frame_number() == 0
}

fn low_ceiling(given: ResultRecord<'_>) -> bool
    ensures { result ≡ low_ceiling given.entry.bytes.now }
{
    given.at.fields / 2 % 2 == 1 && given.ceiling() <= given.first_score()
}

// Refusal 22.
pub(crate) fn check_values(given: ResultRecord<'_>) -> Result<(), Refusal>
    ensures { refused result ≡ first (result_value_faults given.entry.bytes.now) }
{
    if rising(given) {
        return Err(Refusal::ScoreOrder);
    }
    if zero_frame(given) {
        return Err(Refusal::ScoreOrder);
    }
    if low_ceiling(given) {
        return Err(Refusal::ScoreOrder);
    }
    Ok(())
}
