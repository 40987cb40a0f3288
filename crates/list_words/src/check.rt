// The refusals 1, 2, 3, 15, 20 and 6 to 10, decided before anything is written.
ghost use Rattle.std.specs.Prelude.{◌≡◌, ◌*◌, ◌≤◌, ◌<◌, ltb};
ghost use Rattle.spec.specs.Faults.{first};
ghost use Rattle.spec.specs.WordList.{list_room_faults, list_faults};
ghost use Rattle.refusals.specs.Number.{refused};
ghost use Rattle.refusals.specs.Places.{places_of};
ghost use Rattle.code.specs.Codes.{code_of};

use code::{Code, size};
use ranges::check_soft;
use refusals::{Refusal, Room};

// Fewer bytes than n for each place. The product may be too large for a number, so the quotient is compared.
fn rows_short(bytes: usize, n: usize, places: usize) -> bool
    requires { 0 < n }
    ensures { result ≡ ltb bytes (n * places) }
{
    bytes / n < places
}

// Refusals 6 to 10.
fn check_room(n: usize, soft: &[i16], lent: Room) -> Result<(), Refusal>
    requires { (0 < n) × (n ≤ 1024) }
    ensures { refused result ≡ first (list_room_faults n soft.now (places_of lent)) }
{
    let few_numbers = lent.numbers < 32 * n;
    let few_bytes = lent.bytes < 4 * n + 256;
    let few_inputs = rows_short(lent.inputs, n, lent.scores);
    let few_words = rows_short(lent.words, n, lent.scores);
    check_soft(n, soft)?;
    if few_numbers {
        return Err(Refusal::NumberTables);
    }
    if few_bytes {
        return Err(Refusal::ByteTables);
    }
    if few_inputs {
        return Err(Refusal::Room);
    }
    if few_words {
        return Err(Refusal::Room);
    }
    Ok(())
}

// What the call is refused for before anything is written.
pub(crate) fn check_list(code: Code, soft: &[i16], lent: Room) -> Result<(), Refusal>
    ensures { refused result ≡ first (list_faults (code_of code.entry) soft.now (places_of lent)) }
{
    code.check()?;
    let k = code.payload_size();
    if k > 20 {
        return Err(Refusal::PayloadSize);
    }
    let n = size(code.m);
    check_room(n, soft, lent)
}
