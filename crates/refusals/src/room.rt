// How many places each slice has that a call of a decoder is lent.
ghost use Rattle.std.specs.Prelude.{◌≡◌, length};
ghost use Rattle.spec.specs.Refusals.{room};
ghost use Rattle.refusals.specs.Places.{places_of};

#[derive(Clone, Copy)]
pub struct Room {
    pub numbers: usize,
    pub bytes: usize,
    pub inputs: usize,
    pub words: usize,
    pub scores: usize,
}

impl Room {
    pub fn of(numbers: &[u32], bytes: &[u8], inputs: &[u8], words: &[u8], scores: &[i32]) -> Room
        ensures { places_of result ≡ room (length numbers.now) (length bytes.now) (length inputs.now) (length words.now) (length scores.now) }
    {
        Room {
            numbers: numbers.len(),
            bytes: bytes.len(),
            inputs: inputs.len(),
            words: words.len(),
            scores: scores.len(),
        }
    }
}
