// The rows of a decoded block in the three lent outputs and its ceiling, from its history and its live list.
#![tactic(auto)]

ghost use Rattle.std.specs.Prelude.{◌≡◌, ◌≤◌, length};
ghost use Rattle.block_rows.specs.BlockRows.{CostsRead, BitsWritten, BitsFit, CostsWritten, CostsFit, CeilingFits, ceiling_from};

use live::{Live, entry_cost, lesser};
use rows::inputs::write_inputs;
use rows::scores::{magnitude, score_of, write_scores};
use rows::words::write_words;

// The costs of the first count entries.
fn read_costs(code: &[u64; 33], count: usize, costs: &mut [u32; 32])
    requires { (count ≤ 32) × (length code.now ≡ 33) × (length costs.old ≡ 32) }
    ensures { CostsRead count code.now costs.new }
{
    for r in 0..count {
        costs[r] = entry_cost(code[r]);
    }
}

// The input rows and their words.
pub fn write_bits(
    inputs: &mut [u8],
    words: &mut [u8],
    b: &[u8],
    count: usize,
    m: u32,
    arikan: bool,
    l: usize,
    p: usize,
    n: usize,
    h: usize,
)
    requires { BitsFit m l p n h count (length inputs.old) (length words.old) (length b.now) }
    ensures { BitsWritten m arikan l p n h count (length inputs.old) (length words.old) b.now inputs.new words.new }
{
    write_inputs(inputs, &b[3 * h..], l, p, l * p, n, count);
    write_words(words, inputs, m, arikan, n, l, count);
}

// The larger of the first score and the highest that was dropped, where total is the sum of the magnitudes.
fn ceiling_of(s: Live, total: u32) -> i32
    requires { CeilingFits total s }
    ensures { result ≡ ceiling_from total s }
{
    let least = lesser(entry_cost(s.code[0]), s.lost);
    score_of(total, least)
}

// The scores of the entries of s; returns the ceiling.
pub fn write_costs(scores: &mut [i32], soft: &[i16], s: Live) -> i32
    requires { CostsFit (length scores.old) soft.now s }
    ensures { CostsWritten (length scores.old) soft.now s result scores.new }
{
    let mut costs = [0u32; 32];
    read_costs(&s.code, s.count, &mut costs);
    let total = magnitude(soft);
    write_scores(scores, &costs, total, s.count);
    ceiling_of(s, total)
}
