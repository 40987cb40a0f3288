// What a record is refused for, decided before anything is written.
#![tactic(auto)]

mod shape;

ghost use Rattle.std.specs.Prelude.{◌||◌, ◌≡◌, ◌*◌, ◌≤◌, ltb};
ghost use Rattle.spec.specs.Code.{map_bytes};
ghost use Rattle.spec.specs.Faults.{first, some};
ghost use Rattle.spec.specs.Refusals.{out_of_range};
ghost use Rattle.spec.specs.Record.{field_faults, record_soft};
ghost use Rattle.refusals.specs.Number.{refused};
ghost use Rattle.job_refusals.specs.Conditions.{record_code_faults, code_and_range_faults, lent_faults};

use code::Code;
use job_fields::{JobRecord, Layout};
use ranges::{check_range, out_of_range};
use refusals::Refusal;
pub use shape::locate;

// Refusals 3 and 15: of a code whose m and whose map's length are right, no other applies.
fn check_code(job: JobRecord) -> Result<(), Refusal>
    ensures { refused result ≡ first (record_code_faults job.entry.bytes.now) }
{
    let code = Code {
        m: job.at.m,
        arikan: job.at.is_arikan(),
        map: job.map(),
        pairs: job.pairs(),
    };
    code.check()
}

// Refusals 3, 15, 4 and 5.
fn check_code_and_range(job: JobRecord) -> Result<(), Refusal>
    ensures { refused result ≡ first (code_and_range_faults job.entry.bytes.now) }
{
    check_code(job)?;
    let p = job.stop_position();
    let l = job.list_size();
    check_range(job.at.n, l, p)
}

// A soft value is out of range. All are looked at, and none ends the loop: so it runs in vector instructions.
fn some_out_of_range(job: JobRecord) -> bool
    ensures { result ≡ some out_of_range (record_soft job.entry.bytes.now) }
{
    let mut outside = false;
    for i in 0..job.at.n {
        outside |= out_of_range(job.soft(i));
    }
    outside
}

// How many places the slices have that are lent for the frozen map, the soft values and the pairs.
#[derive(Clone, Copy)]
pub struct Lent {
    pub map: usize,
    pub soft: usize,
    pub pairs: usize,
}

// A lent slice is too short for the soft values or the map of n positions, or for the pairs.
fn too_short(at: Layout, lent: Lent) -> bool
    requires { at.n ≤ 1024 }
    ensures { result ≡ (ltb lent.map (map_bytes at.n) || (ltb lent.soft at.n || ltb lent.pairs (4 * at.count))) }
{
    if lent.soft < at.n {
        return true;
    }
    if lent.map < (at.n + 7) / 8 {
        return true;
    }
    lent.pairs < 4 * (at.count as usize)
}

// Refusals 7 and 10.
fn check_lent(job: JobRecord, lent: Lent) -> Result<(), Refusal>
    ensures { refused result ≡ first (lent_faults job.entry.bytes.now lent.map lent.soft lent.pairs) }
{
    let outside = some_out_of_range(job);
    let short = too_short(job.at, lent);
    if outside {
        return Err(Refusal::SoftValue);
    }
    if short {
        return Err(Refusal::Room);
    }
    Ok(())
}

// What the fields of a record are refused for: 3, 15, 4, 5, 7 and 10.
pub fn check_fields(job: JobRecord, lent: Lent) -> Result<(), Refusal>
    ensures { refused result ≡ first (field_faults job.entry.bytes.now lent.map lent.soft lent.pairs) }
{
    check_code_and_range(job)?;
    check_lent(job, lent)
}
