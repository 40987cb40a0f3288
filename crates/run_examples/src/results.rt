// Calls of the writer and of the two readers of result records: the answer, and what is lent. Scores and ceilings are given as numbers from 0
// on.
ghost use Rattle.std.specs.Prelude.{◌≡◌, ◌≤◌, length};

use crate::lines::least;
use crate::lists::{byte_of, read_fields, read_list};
use crate::say::{say, say_all, say_number, say_refusal, say_signed, say_spaced};
use crate::writing::say_length;
use refusals::Refusal;
use result::{ResultHead, read_result, read_result_operator};
use result_writer::write_result;

fn copy_scores(given: &[u8], scores: &mut [i32])
    requires { length given.now ≤ length scores.old }
{
    for (i, x) in given.iter().enumerate() {
        scores[i] = i32::from(*x);
    }
}

// m, the row count, the frame number and the ceiling, and how long the output is, at most 16 bytes.
fn write_given(given: &[u8], inputs: &[u8], fields: &[u32])
    requires { (length given.now ≤ 3) × (length fields.now ≡ 5) }
{
    let k = given.len();
    let len = least(fields[4], 16);
    let ceiling = least(fields[3], 255) as i32;
    let mut scores = [0i32; 3];
    copy_scores(given, &mut scores);
    let mut space = [5u8; 16];
    let output: &mut [u8] = &mut space[..len];
    let answer = write_result(
        fields[0],
        fields[1],
        fields[2],
        ceiling,
        &scores[..k],
        inputs,
        output,
    );
    say_length(answer);
    say_spaced(b", output", output);
}

// The numbers, at most 3 scores and 9 bytes of inputs.
pub(crate) fn write_line(line: &[u8], at: usize) {
    let mut fields = [0u32; 5];
    let mut given = [0u8; 3];
    let mut inputs = [0u8; 9];
    let from = read_fields(line, at, &mut fields);
    let a = read_list(line, from, &mut given, byte_of);
    let b = read_list(line, a.at, &mut inputs, byte_of);
    write_given(&given[..a.len], &inputs[..b.len], &fields);
}

fn say_head(head: ResultHead) {
    say_number(b": m ", head.m);
    say_number(b" rows ", head.rows);
    say_number(b" frame ", head.frame);
    say(b" ceiling ");
    say_signed(head.ceiling);
}

fn say_answer(answer: Result<ResultHead, Refusal>) {
    match answer {
        Ok(head) => say_head(head),
        Err(refusal) => say_refusal(refusal),
    }
}

// With room for at most 3 scores.
fn read_as_operator(record: &[u8], room: usize)
    requires { room ≤ 3 }
{
    let mut space = [5i32; 3];
    let scores: &mut [i32] = &mut space[..room];
    let answer = read_result_operator(record, scores);
    say_answer(answer);
    say_all(b", scores", scores);
}

// With room for at most 3 scores and 9 bytes of inputs.
fn read_as_customer(record: &[u8], room: usize, bytes: usize)
    requires { (room ≤ 3) × (bytes ≤ 9) }
{
    let mut space = [5i32; 3];
    let mut rows = [5u8; 9];
    let scores: &mut [i32] = &mut space[..room];
    let inputs: &mut [u8] = &mut rows[..bytes];
    let answer = read_result(record, scores, inputs);
    say_answer(answer);
    say_all(b", scores", scores);
    say_spaced(b", inputs", inputs);
}

// The rooms, and at most 18 bytes of a record.
pub(crate) fn read_line(operator: bool, line: &[u8], at: usize) {
    let mut fields = [0u32; 2];
    let mut record = [0u8; 18];
    let from = read_fields(line, at, &mut fields);
    let a = read_list(line, from, &mut record, byte_of);
    let room = least(fields[0], 3);
    let bytes = least(fields[1], 9);
    if operator {
        read_as_operator(&record[..a.len], room);
    } else {
        read_as_customer(&record[..a.len], room, bytes);
    }
}
