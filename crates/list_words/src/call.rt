// The call: refused, or served. It answers how many words there are.
ghost use Rattle.std.specs.Prelude.{◌≡◌, ◌+◌, ◌^◌, ◌≤◌, length};
ghost use Rattle.spec.specs.Refusals.{room};
ghost use Rattle.spec.specs.Outcome.{lent};
ghost use Rattle.spec.specs.WordList.{listing, list_served, list_outcome};
ghost use Rattle.code.specs.Codes.{code_of};
ghost use Rattle.list_words.specs.Answers.{answer_of};
ghost use Rattle.list_words.specs.Listed.{ListFits, Listed, ServeFits};

use crate::check::check_list;
use crate::passes::{count_words, write_rows};
use code::{Code, size};
use payload_blocks::find_columns;
use refusals::{Refusal, Room};
use slices::clear_tables;

// Counts the words, and writes their rows where they have room. How many there are. Columns, payload, word and bins are working memory.
fn list_all(
    code: Code,
    mark: i32,
    soft: &[i16],
    cols: &mut [u32],
    payload: &mut [u8],
    word: &mut [u8],
    bins: &mut [u32],
    inputs: &mut [u8],
    words: &mut [u8],
    scores: &mut [i32],
    r: u32,
    n: usize,
    total: usize,
) -> usize
    requires { ListFits (code_of code) soft.now r n total (length cols.old) (length payload.old) (length word.old) (length bins.old)
        (length inputs.old) (length words.old) (length scores.old) }
    ensures { Listed (code_of code.entry) soft.now mark result
        inputs.old words.old scores.old inputs.new words.new scores.new }
{
    find_columns(code, payload, word, cols, r);
    let found = count_words(code, soft, cols, payload, word, bins, r, total, mark);
    if found > scores.len() {
        return found;
    }
    write_rows(
        code, soft, cols, payload, word, bins, inputs, words, scores, r, n, total, mark,
    );
    found
}

// 2 ^ k
fn power(k: u32) -> usize
    requires { k ≤ 20 }
    ensures { (result ≡ 2 ^ k) × (result ≤ 1048576) }
{
    1 << k
}

// How many of the k payload bits are taken at once: the bins for them take half of the numbers that are lent.
fn last_bits(m: u32, k: u32) -> u32
    requires { m ≤ 10 }
    ensures { (result ≤ k) × (result ≤ m + 4) }
{
    k.min(m + 4)
}

// The same in the tables that are lent. What is kept in memory of its own is made from the code alone: the columns, and payloads in their order.
fn list_in_tables(
    code: Code,
    mark: i32,
    soft: &[i16],
    numbers: &mut [u32],
    bytes: &mut [u8],
    inputs: &mut [u8],
    words: &mut [u8],
    scores: &mut [i32],
    n: usize,
    k: usize,
    r: u32,
) -> usize
    requires { (ServeFits (code_of code) soft.now n k (room (length numbers.old) (length bytes.old) (length inputs.old) (length words.old) (length scores.old)))
        × (r ≤ k) × (r ≤ code.m + 4) }
    ensures { Listed (code_of code.entry) soft.now mark result
        inputs.old words.old scores.old inputs.new words.new scores.new }
{
    let mut cols: [u32; 1024] = [0; 1024];
    let mut payload: [u8; 20] = [0; 20];
    let step = power(r);
    let total = power(k as u32);
    list_all(
        code,
        mark,
        soft,
        &mut cols[..n],
        &mut payload[..k],
        &mut bytes[..n],
        &mut numbers[..step],
        inputs,
        words,
        scores,
        r,
        n,
        total,
    )
}

// A call that is not refused before: then the tables are 0, and the outputs hold the rows, or are as before where there is no room.
fn serve(
    code: Code,
    mark: i32,
    soft: &[i16],
    numbers: &mut [u32],
    bytes: &mut [u8],
    inputs: &mut [u8],
    words: &mut [u8],
    scores: &mut [i32],
    n: usize,
    k: usize,
) -> Result<u32, Refusal>
    requires { ServeFits (code_of code) soft.now n k (room (length numbers.old) (length bytes.old) (length inputs.old) (length words.old) (length scores.old)) }
    ensures { listing (answer_of result) (lent numbers.new bytes.new inputs.new words.new scores.new)
        ≡ list_served (code_of code.entry) mark soft.now (lent numbers.old bytes.old inputs.old words.old scores.old) }
{
    let r = last_bits(code.m, k as u32);
    let found = list_in_tables(
        code, mark, soft, numbers, bytes, inputs, words, scores, n, k, r,
    );
    clear_tables(numbers, bytes);
    if scores.len() < found {
        return Err(Refusal::ManyWords);
    }
    Ok(found as u32)
}

// Each code word that correlates with the soft values at the mark or above, once, the smaller input first: inputs, words and correlations, 0
// behind them.
pub fn list_words(
    code: Code,
    mark: i32,
    soft: &[i16],
    numbers: &mut [u32],
    bytes: &mut [u8],
    inputs: &mut [u8],
    words: &mut [u8],
    scores: &mut [i32],
) -> Result<u32, Refusal>
    ensures { listing (answer_of result) (lent numbers.new bytes.new inputs.new words.new scores.new)
        ≡ list_outcome (code_of code.entry) mark soft.now (lent numbers.old bytes.old inputs.old words.old scores.old) }
{
    check_list(code, soft, Room::of(numbers, bytes, inputs, words, scores))?;
    let n = size(code.m);
    let k = code.payload_size();
    serve(
        code, mark, soft, numbers, bytes, inputs, words, scores, n, k,
    )
}
