// The parts of a record, its soft values as they are taken, at the front of a lent slice each, and 0 behind.
ghost use Rattle.std.specs.Prelude.{◌≡◌, false, ◌≤◌, length, pos};
ghost use Rattle.spec.specs.Score.{taken};
ghost use Rattle.spec.specs.Faults.{some};
ghost use Rattle.spec.specs.Refusals.{out_of_range};
ghost use Rattle.spec.specs.Record.{positions, record_soft};
ghost use Rattle.spec.specs.Outcome.{padded};

use job_fields::JobRecord;
use ranges::saturated;
use slices::{copy, fill_from};

pub(crate) fn write_part(from: &[u8], part: &mut [u8])
    requires { length from.now ≤ length part.old }
    ensures { part.new ≡ padded 0 (length part.old) from.now }
{
    let k = from.len();
    copy(from, &mut part[..k]);
    fill_from(part, k, 0);
}

pub(crate) fn write_soft(job: JobRecord, soft: &mut [i16])
    requires { (positions job.bytes.now ≤ length soft.old) × (some out_of_range (record_soft job.bytes.now) ≡ false) }
    ensures { soft.new ≡ padded (pos 0) (length soft.old) (taken (record_soft job.entry.bytes.now)) }
{
    let n = job.at.n;
    for i in 0..n {
        soft[i] = saturated(job.soft(i));
    }
    fill_from(soft, n, 0);
}
