// The rows of the payloads that are kept: input, word and score, one behind the other.
ghost use Rattle.std.specs.Prelude.{◌≡◌, List, ◌∷◌, [], ◌++◌, ℕ, ◌+◌, ◌*◌, ◌≤◌, ◌<◌, length, ℤ};
ghost use Rattle.spec.specs.Score.{correlation};
ghost use Rattle.correlations.specs.Folding.{wrapped};
ghost use Rattle.code.specs.Codes.{code_of};
ghost use Rattle.payload_blocks.specs.WordFits.{WordFits};
ghost use Rattle.list_words.specs.Hits.{hits, input_at, word_at};
ghost use Rattle.list_words.specs.Kept.{RowFits, Kept, Small, BinFits, Holds, part, BlockRoom};

use crate::marks::value_of;
use code::Code;
use encoder::fill_input;
use payload_blocks::put_payload;
use rows::words::put_word;

// The input and the word of the payload with number q. The payload is working memory.
fn put_row(code: Code, payload: &mut [u8], input: &mut [u8], word: &mut [u8], q: usize)
    requires { (WordFits (code_of code) (length payload.old) (length input.old)) × (length word.old ≡ length input.old) }
    ensures { (input.new ≡ input_at (code_of code.entry) q)
        × (word.new ≡ word_at (code_of code.entry) q) }
{
    put_payload(payload, q);
    fill_input(code.map, code.pairs, payload, input);
    put_word(word, input, code.m, code.arikan);
}

// Where the row with number i begins, in rows of n bytes.
fn row_start(n: usize, i: usize) -> usize
    requires { (n ≤ 1024) × (i ≤ 1048576) }
    ensures { result ≡ n * i }
{
    n * i
}

// The row of the payload with number q, with its correlation s, behind the `found` rows that are there.
fn keep_row(
    code: Code,
    payload: &mut [u8],
    inputs: &mut [u8],
    words: &mut [u8],
    scores: &mut [i32],
    n: usize,
    found: usize,
    q: usize,
    s: i32,
)
    requires { (WordFits (code_of code) (length payload.old) n)
        × (RowFits n found (length inputs.old) (length words.old) (length scores.old)) }
    ensures { (y : List ℤ) (hs : List ℕ) → length hs ≡ found → s ≡ correlation y (word_at (code_of code.entry) q)
        → Kept (code_of code.entry) y hs inputs.old words.old scores.old
        → Kept (code_of code.entry) y (hs ++ (q ∷ [])) inputs.new words.new scores.new }
{
    let at = row_start(n, found);
    put_row(
        code,
        payload,
        &mut inputs[at..at + n],
        &mut words[at..at + n],
        q,
    );
    scores[found] = s;
}

// One bin: the row of the payload with number q is kept where its correlation is at the mark or above. How many rows there are then.
fn keep(
    code: Code,
    payload: &mut [u8],
    inputs: &mut [u8],
    words: &mut [u8],
    scores: &mut [i32],
    n: usize,
    found: usize,
    q: usize,
    mark: i32,
    v: u32,
) -> usize
    requires { (WordFits (code_of code) (length payload.old) n)
        × (BinFits mark v n found (length inputs.old) (length words.old) (length scores.old)) }
    ensures { (y : List ℤ) (hs : List ℕ) (z : ℤ) → length hs ≡ found → Small z → v ≡ wrapped z
        → z ≡ correlation y (word_at (code_of code.entry) q)
        → (result ≡ length (hs ++ hits mark q (z ∷ [])))
        × (Kept (code_of code.entry) y hs inputs.old words.old scores.old
        → Kept (code_of code.entry) y (hs ++ hits mark q (z ∷ [])) inputs.new words.new scores.new) }
{
    let s = value_of(v);
    if mark <= s {
        keep_row(code, payload, inputs, words, scores, n, found, q, s);
        return found + 1;
    }
    found
}

// The rows of a block, whose first payload has number q, behind the `from` rows that are there. How many there are then.
pub(crate) fn keep_block(
    code: Code,
    bins: &[u32],
    payload: &mut [u8],
    inputs: &mut [u8],
    words: &mut [u8],
    scores: &mut [i32],
    n: usize,
    from: usize,
    q: usize,
    mark: i32,
) -> usize
    requires { (WordFits (code_of code) (length payload.old) n)
        × (BlockRoom (code_of code) mark bins.now n from q (length inputs.old) (length words.old) (length scores.old)) }
    ensures { (y : List ℤ) (hs : List ℕ) → length hs ≡ from → Holds (code_of code.entry) y bins.now q
        → (result ≡ length (hs ++ hits mark q (part (code_of code.entry) y q (length bins.now))))
        × (Kept (code_of code.entry) y hs inputs.old words.old scores.old
        → Kept (code_of code.entry) y (hs ++ hits mark q (part (code_of code.entry) y q (length bins.now))) inputs.new words.new scores.new) }
{
    let mut found = from;
    for (i, v) in bins.iter().enumerate() {
        found = keep(
            code,
            payload,
            inputs,
            words,
            scores,
            n,
            found,
            q + i,
            mark,
            *v,
        );
    }
    found
}
