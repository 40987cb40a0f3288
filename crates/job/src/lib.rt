// The reader of job records.
#![tactic(auto)]

mod copying;
mod host;

ghost use Rattle.std.specs.Prelude.{◌≡◌};
ghost use Rattle.spec.specs.Outcome.{reading, read_outcome};
ghost use Rattle.job.specs.Answer.{said, job_of, job_in};

use copying::{write_part, write_soft};
pub use host::JobFields;
use job_fields::JobRecord;
use job_refusals::{Lent, check_fields, locate};
use refusals::Refusal;

// What a record that is read says: m, whether the transform is Arikan's, list size, stop position, frame number and the number of pairs.
#[derive(Clone, Copy, Debug, PartialEq, Eq)]
pub struct Job {
    pub m: u32,
    pub arikan: bool,
    pub list_size: u32,
    pub stop: u32,
    pub frame: u32,
    pub pairs: u32,
}

fn fields_of(job: JobRecord) -> Job
    ensures { said result ≡ job_in job.entry.bytes.now }
{
    Job {
        m: job.at.m,
        arikan: job.at.is_arikan(),
        list_size: job.list_size(),
        stop: job.stop_position(),
        frame: job.frame_number(),
        pairs: job.at.count,
    }
}

// Reads a record: the frozen map goes to `map`, the soft values to `soft` and the pairs to `pairs`, 0 behind them. A record that is refused
// writes nowhere.
pub fn read_job(
    bytes: &[u8],
    map: &mut [u8],
    soft: &mut [i16],
    pairs: &mut [u8],
) -> Result<Job, Refusal>
    ensures { reading (job_of result) map.new soft.new pairs.new
        ≡ read_outcome bytes.now map.old soft.old pairs.old }
{
    let job = locate(bytes)?;
    let lent = Lent {
        map: map.len(),
        soft: soft.len(),
        pairs: pairs.len(),
    };
    check_fields(job, lent)?;
    write_part(job.map(), map);
    write_part(job.pairs(), pairs);
    write_soft(job, soft);
    Ok(fields_of(job))
}
