// Two passes over all payloads, block by block: one counts the words at the mark or above, the other writes their rows.
ghost use Rattle.std.specs.Prelude.{◌≡◌, List, ◌++◌, ℕ, ◌+◌, ◌^◌, ◌≤◌, pos, length, replicate};
ghost use Rattle.spec.specs.Code.{payload_size};
ghost use Rattle.spec.specs.Score.{taken};
ghost use Rattle.code.specs.Codes.{code_of};
ghost use Rattle.payload_blocks.specs.Payloads.{Multiple, correlations};
ghost use Rattle.payload_blocks.specs.BlockFits.{BlockFits, block};
ghost use Rattle.list_words.specs.Hits.{hits};
ghost use Rattle.list_words.specs.Kept.{Kept, TurnRoom, PassRoom};

use crate::marks::count_block;
use crate::rows_kept::keep_block;
use code::Code;
use payload_blocks::correlate_block;

// How many words of the block that begins with payload q are at the mark or above.
fn count_turn(
    code: Code,
    soft: &[i16],
    cols: &[u32],
    payload: &mut [u8],
    word: &mut [u8],
    bins: &mut [u32],
    r: u32,
    q: usize,
    mark: i32,
) -> usize
    requires { (BlockFits (code_of code) soft.now cols.now r (length payload.old) (length word.old) (length bins.old))
        × (Multiple r q) × (q + 2 ^ r ≤ 2 ^ payload_size (code_of code)) }
    ensures { result ≡ length (hits mark q (block (code_of code.entry) soft.now r q)) }
{
    correlate_block(code, soft, cols, payload, word, bins, r, q);
    count_block(bins, mark)
}

// How many words are at the mark or above, of all `total` payloads. Payload, word and bins are working memory.
pub(crate) fn count_words(
    code: Code,
    soft: &[i16],
    cols: &[u32],
    payload: &mut [u8],
    word: &mut [u8],
    bins: &mut [u32],
    r: u32,
    total: usize,
    mark: i32,
) -> usize
    requires { (BlockFits (code_of code) soft.now cols.now r (length payload.old) (length word.old) (length bins.old))
        × (total ≡ 2 ^ payload_size (code_of code)) }
    ensures { result ≡ length (hits mark 0 (correlations (code_of code.entry) (taken soft.now))) }
{
    let mut found = 0;
    for q in (0..total).step_by(bins.len()) {
        found += count_turn(code, soft, cols, payload, word, bins, r, q, mark);
    }
    found
}

// The rows of that block, behind the `found` rows that are there. How many there are then.
fn write_turn(
    code: Code,
    soft: &[i16],
    cols: &[u32],
    payload: &mut [u8],
    word: &mut [u8],
    bins: &mut [u32],
    inputs: &mut [u8],
    words: &mut [u8],
    scores: &mut [i32],
    r: u32,
    n: usize,
    found: usize,
    q: usize,
    mark: i32,
) -> usize
    requires { (BlockFits (code_of code) soft.now cols.now r (length payload.old) (length word.old) (length bins.old))
        × (Multiple r q) × (q + 2 ^ r ≤ 2 ^ payload_size (code_of code))
        × (TurnRoom (code_of code) soft.now mark r n found q (length inputs.old) (length words.old) (length scores.old)) }
    ensures { (hs : List ℕ) → length hs ≡ found
        → (result ≡ length (hs ++ hits mark q (block (code_of code.entry) soft.now r q)))
        × (Kept (code_of code.entry) (taken soft.now) hs inputs.old words.old scores.old
        → Kept (code_of code.entry) (taken soft.now) (hs ++ hits mark q (block (code_of code.entry) soft.now r q)) inputs.new words.new scores.new) }
{
    correlate_block(code, soft, cols, payload, word, bins, r, q);
    keep_block(
        code, bins, payload, inputs, words, scores, n, found, q, mark,
    )
}

// The three outputs set to 0.
fn clear_outputs(inputs: &mut [u8], words: &mut [u8], scores: &mut [i32])
    ensures { (inputs.new ≡ replicate (length inputs.old) 0)
        × (words.new ≡ replicate (length words.old) 0)
        × (scores.new ≡ replicate (length scores.old) (pos 0)) }
{
    inputs.fill(0);
    words.fill(0);
    scores.fill(0);
}

// The rows of all words at the mark or above, which have room, and 0 behind them.
pub(crate) fn write_rows(
    code: Code,
    soft: &[i16],
    cols: &[u32],
    payload: &mut [u8],
    word: &mut [u8],
    bins: &mut [u32],
    inputs: &mut [u8],
    words: &mut [u8],
    scores: &mut [i32],
    r: u32,
    n: usize,
    total: usize,
    mark: i32,
)
    requires { (BlockFits (code_of code) soft.now cols.now r (length payload.old) (length word.old) (length bins.old))
        × (total ≡ 2 ^ payload_size (code_of code))
        × (PassRoom (code_of code) soft.now mark n (length inputs.old) (length words.old) (length scores.old)) }
    ensures { Kept (code_of code.entry) (taken soft.now)
        (hits mark 0 (correlations (code_of code.entry) (taken soft.now))) inputs.new words.new scores.new }
{
    clear_outputs(inputs, words, scores);
    let mut found = 0;
    for q in (0..total).step_by(bins.len()) {
        found = write_turn(
            code, soft, cols, payload, word, bins, inputs, words, scores, r, n, found, q, mark,
        );
    }
}
