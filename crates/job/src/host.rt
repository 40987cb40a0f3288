// What the reader answers, for a host that has no enum: seven numbers.
ghost use Rattle.std.specs.Prelude.{◌≡◌};
ghost use Rattle.job.specs.Answer.{job_of, fields_of};

use crate::Job;
use refusals::Refusal;

// 0 and the fields of a record that is read, `arikan` 1 where the transform is Arikan's and else 0; or the refusal number, and 0 in each
// field.
#[repr(C)]
#[derive(Drop)]
pub struct JobFields {
    pub refusal: u32,
    pub m: u32,
    pub list_size: u32,
    pub stop: u32,
    pub frame: u32,
    pub pairs: u32,
    pub arikan: u32,
}

impl From<Result<Job, Refusal>> for JobFields {
    ghost from_gives = { λ answer told. told ≡ fields_of (job_of answer) };

    fn from(answer: Result<Job, Refusal>) -> JobFields {
        match answer {
            Ok(job) => JobFields {
                refusal: 0,
                m: job.m,
                list_size: job.list_size,
                stop: job.stop,
                frame: job.frame,
                pairs: job.pairs,
                arikan: u32::from(job.arikan),
            },
            Err(refusal) => JobFields {
                refusal: refusal.number(),
                m: 0,
                list_size: 0,
                stop: 0,
                frame: 0,
                pairs: 0,
                arikan: 0,
            },
        }
    }
}
