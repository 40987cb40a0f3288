// A block: the correlations of 2 ^ r code words whose payloads stand in a row.
ghost use Rattle.std.specs.Prelude.{◌≡◌, ◌+◌, ◌^◌, ◌≤◌, length};
ghost use Rattle.spec.specs.Code.{payload_size};
ghost use Rattle.code.specs.Codes.{code_of};
ghost use Rattle.payload_blocks.specs.Payloads.{Multiple};
ghost use Rattle.payload_blocks.specs.BlockFits.{BlockFits, block_bins};

use crate::payload_bits::put_word;
use code::Code;
use correlations::correlate;

// The correlations of the payloads from number q on, a multiple of 2 ^ r. Payload and word are working memory.
pub fn correlate_block(
    code: Code,
    soft: &[i16],
    cols: &[u32],
    payload: &mut [u8],
    word: &mut [u8],
    bins: &mut [u32],
    r: u32,
    q: usize,
)
    requires { (BlockFits (code_of code) soft.now cols.now r (length payload.old) (length word.old) (length bins.old))
        × (Multiple r q) × (q + 2 ^ r ≤ 2 ^ payload_size (code_of code)) }
    ensures { bins.new ≡ block_bins (code_of code.entry) soft.now r q }
{
    let h = bins.len() / 2;
    put_word(code, payload, word, q);
    correlate(bins, cols, word, soft, r, h);
}
