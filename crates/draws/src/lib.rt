// Draws from a state: the bits of a payload, and the soft values of a code word with noise.
#![tactic(auto)]

ghost use Rattle.std.specs.Prelude.{◌≡◌, ◌%◌, length};
ghost use Rattle.spec.specs.TestLoad.{draw, draws, after_draws, drawn_bits, noisy, noisy_word};

// A draw: the new state.
#[tactic(auto, unfolding(spec::specs::TestLoad::draw))]
fn next_draw(s: u32) -> u32
    ensures { result ≡ draw s }
{
    let a = s ^ (s << 13);
    let b = a ^ (a >> 17);
    b ^ (b << 5)
}

fn low_bit(x: u32) -> u8
    ensures { result ≡ x % 2 }
{
    (x % 2) as u8
}

// The low bits of as many draws as there are places. Gives the state after them.
pub fn draw_bits(s: u32, bits: &mut [u8]) -> u32
    ensures { (result ≡ after_draws (length bits.old) s)
        × (bits.new ≡ drawn_bits (length bits.old) s) }
{
    let mut state = s;
    for bit in bits.iter_mut() {
        state = next_draw(state);
        *bit = low_bit(state);
    }
    state
}

// 20 or -20 by the code bit, plus the draw modulo 41, minus 20.
fn noisy_value(bit: u8, x: u32) -> i16
    ensures { result ≡ noisy bit x }
{
    if bit == 0 {
        return (x % 41) as i16;
    }
    (x % 41) as i16 - 40
}

// A draw for each soft value of a word. Gives the state after them.
pub fn draw_soft(s: u32, word: &[u8], soft: &mut [i16]) -> u32
    requires { length soft.old ≡ length word.now }
    ensures { (result ≡ after_draws (length word.now) s)
        × (soft.new ≡ noisy_word word.now (draws (length word.now) s)) }
{
    let mut state = s;
    for (i, bit) in word.iter().enumerate() {
        state = next_draw(state);
        soft[i] = noisy_value(*bit, state);
    }
    state
}
