// All that the program writes for its input.
ghost use Rattle.std.specs.Prelude.{◌≤◌, length};
ghost use Rattle.place.specs.Put.{Begins};
ghost use Rattle.decode_job.specs.ProgramOutput.{program_output};
ghost use Rattle.decode_job.specs.Records.{record_output};

use block_output::write_block;
use job::read_job;
use refusals::Refusal;
use row_text::write_refused;

// The output for a record of a length that the program takes.
fn write_record(input: &[u8], out: &mut [u8]) -> usize
    requires { 665 ≤ length out.old }
    ensures { Begins (record_output input.now) out.old result out.new }
{
    let mut map = [0u8; 128];
    let mut soft = [0i16; 1024];
    let mut pairs = [0u8; 1024];
    match read_job(input, &mut map, &mut soft, &mut pairs) {
        Ok(job) => write_block(job, &map, &pairs, &soft, out),
        Err(refusal) => write_refused(refusal.number(), out),
    }
}

// Written to the front of `out`. Returns how many bytes.
pub(crate) fn write_output(input: &[u8], out: &mut [u8]) -> usize
    requires { 665 ≤ length out.old }
    ensures { Begins (program_output input.now) out.old result out.new }
{
    if input.len() > 4096 {
        return write_refused(Refusal::RecordLength.number(), out);
    }
    write_record(input, out)
}
