// Calls of the decoder: the refusal, or the rows.
ghost use Rattle.std.specs.Prelude.{◌≡◌, ◌≤◌, length};

use crate::lines::least;
use crate::say::{say, say_bytes, say_number, say_refusal, say_signed};
use code::Code;
use decoder::{Decoded, decode};

fn say_score(scores: &[i32]) {
    say(b", score ");
    if let Some(score) = scores.first() {
        say_signed(*score);
    }
}

// The number of rows and the ceiling, all that the rows lent hold, and the first score.
fn say_decoded(decoded: Decoded, inputs: &[u8], words: &[u8], scores: &[i32]) {
    say_number(b": rows ", decoded.rows);
    say(b", ceiling ");
    say_signed(decoded.ceiling);
    say_bytes(b", inputs ", inputs);
    say_bytes(b", words ", words);
    say_score(scores);
}

// What a call is given in numbers behind m and the choice of the transform: l and p, and how much is lent of the number tables, the byte tables, the input rows, the code rows
// and the scores.
#[derive(Drop)]
pub(crate) struct Asked {
    pub l: u32,
    pub p: u32,
    pub numbers: usize,
    pub bytes: usize,
    pub inputs: usize,
    pub words: usize,
    pub scores: usize,
}

pub(crate) fn read_asked(fields: &[u32]) -> Asked
    requires { length fields.now ≡ 9 }
    ensures { (result.numbers ≤ 512) × (result.bytes ≤ 320) × (result.inputs ≤ 16) × (result.words ≤ 16) × (result.scores ≤ 1) }
{
    Asked {
        l: fields[2],
        p: fields[3],
        numbers: least(fields[4], 512),
        bytes: least(fields[5], 320),
        inputs: least(fields[6], 16),
        words: least(fields[7], 16),
        scores: least(fields[8], 1),
    }
}

pub(crate) fn decode_asked(code: Code, soft: &[i16], x: Asked)
    requires { (x.numbers ≤ 512) × (x.bytes ≤ 320) × (x.inputs ≤ 16) × (x.words ≤ 16) × (x.scores ≤ 1) }
{
    let a = x.numbers;
    let b = x.bytes;
    let c = x.inputs;
    let d = x.words;
    let e = x.scores;
    let mut number_tables = [5u32; 512];
    let mut byte_tables = [5u8; 320];
    let mut input_rows = [5u8; 16];
    let mut code_rows = [5u8; 16];
    let mut row_scores = [5i32; 1];
    let numbers: &mut [u32] = &mut number_tables[..a];
    let bytes: &mut [u8] = &mut byte_tables[..b];
    let inputs: &mut [u8] = &mut input_rows[..c];
    let words: &mut [u8] = &mut code_rows[..d];
    let scores: &mut [i32] = &mut row_scores[..e];
    match decode(code, x.l, x.p, soft, numbers, bytes, inputs, words, scores) {
        Ok(decoded) => say_decoded(decoded, inputs, words, scores),
        Err(refusal) => say_refusal(refusal),
    }
}
