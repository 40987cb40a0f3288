// Calls of the list of words at a mark or above: the count or the refusal, all that the outputs hold, and the sum of what the tables hold.
ghost use Rattle.std.specs.Prelude.{◌≡◌, ◌≤◌, length};

use crate::lines::least;
use crate::say::{say_all, say_bytes, say_number, say_refusal};
use code::Code;
use list_words::list_words;

// All that the outputs hold.
fn say_outputs(inputs: &[u8], words: &[u8], scores: &[i32]) {
    say_bytes(b", inputs ", inputs);
    say_bytes(b", words ", words);
    say_all(b", scores", scores);
}

// The sum of numbers, which wraps.
fn sum_of<T: Copy + Into<u32>>(numbers: &[T]) -> u32 {
    let mut sum: u32 = 0;
    for x in numbers {
        sum = sum.wrapping_add((*x).into());
    }
    sum
}

// The sum of all that the tables hold.
fn say_tables(numbers: &[u32], bytes: &[u8]) {
    let sum = sum_of(numbers).wrapping_add(sum_of(bytes));
    say_number(b", tables ", sum);
}

// What a call is given in numbers, the third to the eighth: the mark, and how much is lent of the number tables, the
// byte tables, the input rows, the code rows and the scores.
#[derive(Drop)]
pub(crate) struct Marked {
    pub mark: i32,
    pub numbers: usize,
    pub bytes: usize,
    pub inputs: usize,
    pub words: usize,
    pub scores: usize,
}

pub(crate) fn read_marked(fields: &[u32]) -> Marked
    requires { length fields.now ≡ 9 }
    ensures { (result.numbers ≤ 260) × (result.bytes ≤ 300) × (result.inputs ≤ 32) × (result.words ≤ 32) × (result.scores ≤ 4) }
{
    Marked {
        mark: fields[2].cast_signed(),
        numbers: least(fields[3], 260),
        bytes: least(fields[4], 300),
        inputs: least(fields[5], 32),
        words: least(fields[6], 32),
        scores: least(fields[7], 4),
    }
}

pub(crate) fn list_marked(code: Code, soft: &[i16], x: Marked)
    requires { (x.numbers ≤ 260) × (x.bytes ≤ 300) × (x.inputs ≤ 32) × (x.words ≤ 32) × (x.scores ≤ 4) }
{
    let a = x.numbers;
    let b = x.bytes;
    let c = x.inputs;
    let d = x.words;
    let e = x.scores;
    let mut number_tables = [5u32; 260];
    let mut byte_tables = [5u8; 300];
    let mut input_rows = [5u8; 32];
    let mut code_rows = [5u8; 32];
    let mut row_scores = [5i32; 4];
    let numbers: &mut [u32] = &mut number_tables[..a];
    let bytes: &mut [u8] = &mut byte_tables[..b];
    let inputs: &mut [u8] = &mut input_rows[..c];
    let words: &mut [u8] = &mut code_rows[..d];
    let scores: &mut [i32] = &mut row_scores[..e];
    match list_words(code, x.mark, soft, numbers, bytes, inputs, words, scores) {
        Ok(count) => say_number(b": words ", count),
        Err(refusal) => say_refusal(refusal),
    }
    say_outputs(inputs, words, scores);
    say_tables(numbers, bytes);
}
