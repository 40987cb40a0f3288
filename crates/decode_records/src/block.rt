// A block: decoded, and printed.
ghost use Rattle.std.specs.Prelude.{◌≡◌, ◌≤◌, ◌<◌, length};

use crate::dirty::full_of;
use crate::left::print_left;
use crate::lines::print_rows;
use crate::print::{print_byte, print_named, print_refused, print_signed};
use code::{Code, size};
use decoder::{Decoded, decode};
use job::Job;
use refusals::Refusal;

fn print_fields(job: Job) {
    io::write_all(1, b"record");
    print_named(b'm', job.m);
    print_named(b'l', job.list_size);
    print_named(b'p', job.stop);
    print_named(b'f', job.frame);
    print_byte(b'\n');
}

fn print_ceiling(ceiling: i32) {
    io::write_all(1, b"ceiling ");
    print_signed(ceiling);
    print_byte(b'\n');
}

// The ceiling or the refusal is printed. Returns how many rows there are to print.
fn row_count(answer: Result<Decoded, Refusal>) -> usize
    ensures { result ≤ 32 }
{
    match answer {
        Ok(decoded) => {
            print_ceiling(decoded.ceiling);
            decoded.rows.min(32) as usize
        }
        Err(refusal) => {
            print_refused(refusal);
            0
        }
    }
}

fn print_outputs(rows: usize, n: usize, inputs: &[u8], words: &[u8], scores: &[i32])
    requires { (rows ≤ 32) × (0 < n) × (n ≤ 1024) }
{
    print_rows(rows, n, inputs, words, scores);
    let from = rows * n;
    io::write_all(1, b"not 0 behind the rows");
    print_left(inputs, from);
    print_left(words, from);
    print_left(scores, rows);
}

fn print_tables(numbers: &[u32], bytes: &[u8]) {
    io::write_all(1, b", in the tables");
    print_left(numbers, 0);
    print_left(bytes, 0);
    print_byte(b'\n');
}

fn decode_block(code: Code, n: usize, l: u32, p: u32, soft: &[i16])
    requires { (0 < n) × (n ≤ 1024) }
{
    let mut numbers: [u32; 1048576] = full_of(2863311530);
    let mut bytes: [u8; 139264] = full_of(170);
    let mut inputs: [u8; 32768] = full_of(170);
    let mut words: [u8; 32768] = full_of(170);
    let mut scores: [i32; 32] = full_of(-1);
    let answer = decode(
        code,
        l,
        p,
        soft,
        &mut numbers,
        &mut bytes,
        &mut inputs,
        &mut words,
        &mut scores,
    );
    let rows = row_count(answer);
    print_outputs(rows, n, &inputs, &words, &scores);
    print_tables(&numbers, &bytes);
}

// The frozen map, the record's pairs and the soft values stand at the front of their slices.
pub(crate) fn decode_fields(job: Job, map: &[u8], pairs: &[u8], soft: &[i16])
    requires { (length map.now ≡ 128) × (length pairs.now ≡ 1024) × (length soft.now ≡ 1024) }
{
    print_fields(job);
    if job.m > 10 || job.pairs > 256 {
        return;
    }
    let n = size(job.m);
    let code = Code {
        m: job.m,
        arikan: job.arikan,
        map: &map[..(n + 7) / 8],
        pairs: &pairs[..4 * job.pairs as usize],
    };
    decode_block(code, n, job.list_size, job.stop, &soft[..n]);
}
