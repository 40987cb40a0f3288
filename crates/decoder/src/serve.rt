// A call that is served: the live list at the stop position, its rows, and the tables set to 0.
ghost use Rattle.std.specs.Prelude.{◌≡◌, ◌*◌, length};
ghost use Rattle.spec.specs.Refusals.{room};
ghost use Rattle.spec.specs.Outcome.{decoding, decoded, lent, decode_served};
ghost use Rattle.code.specs.Codes.{code_of};
ghost use Rattle.decoder.specs.Serving.{ServeFits, Stopped};

use crate::call::Decoded;
use block_rows::{write_bits, write_costs};
use code::Code;
use live::Live;
use positions::positions;
use slices::clear_tables;
use tables::start::start;

// The live list at stop position p. The inputs, which are written later, serve as working memory.
fn decode_list(
    code: Code,
    l: usize,
    p: usize,
    soft: &[i16],
    t: &mut [u32],
    b: &mut [u8],
    inputs: &mut [u8],
    n: usize,
    h: usize,
) -> Live
    requires { ServeFits (code_of code) l p n h soft.now (room (length t.old) (length b.old) (length inputs.old) (n * l) l) }
    ensures { Stopped (code_of code.entry) l p h soft.now result t.new b.new }
{
    let deep = (code.m - 2) as usize;
    b.fill(0);
    start(t, soft, deep, n / 4, l, h, code.arikan);
    positions(
        t,
        b,
        inputs,
        code.map,
        code.pairs,
        p,
        deep,
        l,
        h,
        n,
        code.arikan,
    )
}

// The row count and the ceiling; then the outputs hold the rows of the paper decoder and the tables are 0.
pub(crate) fn serve(
    code: Code,
    l: usize,
    p: usize,
    soft: &[i16],
    t: &mut [u32],
    b: &mut [u8],
    inputs: &mut [u8],
    words: &mut [u8],
    scores: &mut [i32],
    n: usize,
    h: usize,
) -> Decoded
    requires { ServeFits (code_of code) l p n h soft.now (room (length t.old) (length b.old) (length inputs.old) (length words.old) (length scores.old)) }
    ensures { decoding (decoded result.rows result.ceiling) (lent t.new b.new inputs.new words.new scores.new)
        ≡ decode_served (code_of code.entry) l p soft.now (room (length t.old) (length b.old) (length inputs.old) (length words.old) (length scores.old)) }
{
    let s = decode_list(code, l, p, soft, t, b, inputs, n, h);
    let rows = s.count;
    write_bits(inputs, words, b, rows, code.m, code.arikan, l, p, n, h);
    let ceiling = write_costs(scores, soft, s);
    clear_tables(t, b);
    Decoded {
        rows: rows as u32,
        ceiling,
    }
}
