// A block of at most 64 positions and 4 rows, decoded in tables of its own and written as text.
#![tactic(auto)]

ghost use Rattle.std.specs.Prelude.{◌≡◌, ◌+◌, ◌*◌, ◌^◌, ◌≤◌, length};
ghost use Rattle.code.specs.Codes.{code_of};
ghost use Rattle.decoder.specs.Answers.{answer_of};
ghost use Rattle.place.specs.Put.{Begins};
ghost use Rattle.block_output.specs.Block.{rows_answered, answer_text, decoded_text, block_text};

use code::{Code, size};
use decoder::{Decoded, decode};
use job::Job;
use refusals::Refusal;
use row_text::{write_refused, write_rows};

// What the decoder answered and left, rows of n bits, as text.
fn write_answer(
    answer: Result<Decoded, Refusal>,
    frame: u32,
    n: usize,
    inputs: &[u8],
    words: &[u8],
    scores: &[i32],
    out: &mut [u8],
) -> usize
    requires { (rows_answered (answer_of answer) * n ≤ length inputs.now) × (rows_answered (answer_of answer) * n ≤ length words.now)
        × (rows_answered (answer_of answer) ≤ length scores.now) × (53 + rows_answered (answer_of answer) * (2 * n + 25) ≤ length out.old) }
    ensures { Begins (answer_text frame n (answer_of answer) inputs.now words.now scores.now) out.old result out.new }
{
    match answer {
        Ok(decoded) => write_rows(
            frame,
            decoded.rows,
            decoded.ceiling,
            n,
            inputs,
            words,
            scores,
            out,
        ),
        Err(refusal) => write_refused(refusal.number(), out),
    }
}

fn write_decoded(
    code: Code,
    n: usize,
    l: u32,
    p: u32,
    frame: u32,
    soft: &[i16],
    out: &mut [u8],
) -> usize
    requires { (n ≡ 2 ^ code.m) × (n ≤ 64) × (l ≤ 4) × (665 ≤ length out.old) }
    ensures { Begins (decoded_text (code_of code.entry) l p frame soft.now) out.old result out.new }
{
    let mut numbers = [0u32; 8192];
    let mut bytes = [0u8; 2048];
    let mut inputs = [0u8; 256];
    let mut words = [0u8; 256];
    let mut scores = [0i32; 4];
    let answer = decode(
        code,
        l,
        p,
        soft,
        &mut numbers,
        &mut bytes,
        &mut inputs,
        &mut words,
        &mut scores,
    );
    write_answer(answer, frame, n, &inputs, &words, &scores, out)
}

// The frozen map, the record's pairs and the soft values stand at the front of their slices.
pub fn write_block(job: Job, map: &[u8], pairs: &[u8], soft: &[i16], out: &mut [u8]) -> usize
    requires { (job.m ≤ 10) × (job.pairs ≤ 256) × (length map.now ≡ 128) × (length pairs.now ≡ 1024) × (length soft.now ≡ 1024) × (665 ≤ length out.old) }
    ensures { Begins (block_text job.m job.arikan job.list_size job.stop job.frame job.pairs map.now pairs.now soft.now) out.old result out.new }
{
    let n = size(job.m);
    if n > 64 {
        return write_refused(Refusal::NumberTables.number(), out);
    }
    let l = job.list_size;
    if l > 4 {
        return write_refused(Refusal::NumberTables.number(), out);
    }
    let code = Code {
        m: job.m,
        arikan: job.arikan,
        map: &map[..(n + 7) / 8],
        pairs: &pairs[..4 * job.pairs as usize],
    };
    write_decoded(code, n, l, job.stop, job.frame, &soft[..n], out)
}
