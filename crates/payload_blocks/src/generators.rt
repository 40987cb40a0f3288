// The columns of the positions: which of the last r payload bits each code bit is the sum of.
ghost use Rattle.std.specs.Prelude.{◌≡◌, ℕ, ◌^◌, ◌<◌, ◌≤◌, length};
ghost use Rattle.spec.specs.Code.{payload_size, encoded};
ghost use Rattle.laws.specs.ListCost.{All};
ghost use Rattle.correlations.specs.Folding.{weighed, columns};
ghost use Rattle.code.specs.Codes.{code_of};
ghost use Rattle.payload_blocks.specs.Payloads.{numeral, generators};
ghost use Rattle.payload_blocks.specs.WordFits.{raised, WordFits};

use crate::payload_bits::put_word;
use code::Code;

// A column c, with h more where the bit is 1.
fn raise(c: u32, b: u8, h: u32) -> u32
    requires { (c < h) × (h ≤ 1048576) }
    ensures { result ≡ raised h b c }
{
    if b == 0 {
        return c;
    }
    h + c
}

// h more in each column where the word has 1.
fn add_column(cols: &mut [u32], word: &[u8], h: u32)
    requires { (length word.now ≡ length cols.old) × (All (λ (c : ℕ). c < h) cols.old) × (h ≤ 1048576) }
    ensures { cols.new ≡ weighed h word.now cols.old }
{
    for (i, b) in word.iter().enumerate() {
        cols[i] = raise(cols[i], *b, h);
    }
}

// The same for the code word of the payload with number h.
fn add_generator(code: Code, payload: &mut [u8], word: &mut [u8], cols: &mut [u32], h: u32)
    requires { (WordFits (code_of code) (length payload.old) (length word.old))
        × (length word.old ≡ length cols.old) × (All (λ (c : ℕ). c < h) cols.old) × (h ≤ 1048576) }
    ensures { cols.new ≡ weighed h (encoded (code_of code.entry)
        (numeral (payload_size (code_of code.entry)) h)) cols.old }
{
    put_word(code, payload, word, h as usize);
    add_column(cols, word, h);
}

// The columns for the last r bits of a payload. Payload and word are working memory.
pub fn find_columns(code: Code, payload: &mut [u8], word: &mut [u8], cols: &mut [u32], r: u32)
    requires { (WordFits (code_of code) (length payload.old) (length word.old))
        × (length cols.old ≡ 2 ^ code.m) × (r ≤ 20) }
    ensures { cols.new ≡ columns (2 ^ code.entry.m) (generators (code_of code.entry) r) }
{
    cols.fill(0);
    for j in 0..r {
        add_generator(code, payload, word, cols, 1 << j);
    }
}
