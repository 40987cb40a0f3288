// The words of the input rows: each row's transform, and 0 behind them.
ghost use Rattle.std.specs.Prelude.{◌≡◌, length};
ghost use Rattle.spec.specs.Transform.{transform_by};
ghost use Rattle.transform.specs.Word.{Word};
ghost use Rattle.rows.specs.Words.{WordsFit, WordsWritten};

use slices::copy;
use transform::transform_word;

// The word of one input row.
pub fn put_word(row: &mut [u8], input: &[u8], m: u32, arikan: bool)
    requires { (length row.old ≡ length input.now) × Word m input.now }
    ensures { row.new ≡ transform_by arikan m input.now }
{
    copy(input, row);
    transform_word(row, m, arikan);
}

// The words of count input rows of n = 2 ^ m places, by rank, and 0 behind them.
pub fn write_words(
    words: &mut [u8],
    inputs: &[u8],
    m: u32,
    arikan: bool,
    n: usize,
    l: usize,
    count: usize,
)
    requires { WordsFit m n l count (length words.old) inputs.now }
    ensures { WordsWritten m arikan n count (length words.old) inputs.now words.new }
{
    words.fill(0);
    for r in 0..count {
        let at = n * r;
        put_word(&mut words[at..at + n], &inputs[at..at + n], m, arikan);
    }
}
