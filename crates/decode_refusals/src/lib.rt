// The refusals of a decoder call in turn, 1 to 10 with 15 behind 3, decided before anything is written.
#![tactic(auto)]

ghost use Rattle.std.specs.Prelude.{◌≡◌, Bool, ◌||◌, ◌++◌, ◌^◌, ◌≤◌, ltb};
ghost use Rattle.spec.specs.Code as definitions;
ghost use Rattle.spec.specs.Faults.{first};
ghost use Rattle.spec.specs.Refusals.{code_faults, run_faults, table_faults, decode_faults};
ghost use Rattle.refusals.specs.Number.{refused};
ghost use Rattle.refusals.specs.Places.{places_of};

use code::{Code, size};
use ranges::{check_range, check_soft};
use refusals::{Refusal, Room};
use slices::times;

// Refusals 4 to 7.
fn check_run(n: usize, l: u32, p: u32, soft: &[i16]) -> Result<(), Refusal>
    ensures { refused result ≡ first (run_faults n l p soft.now) }
{
    check_range(n, l, p)?;
    check_soft(n, soft)
}

// Refusals 1 to 7 with 15 behind 3: of a code, whatever its transform is, and of what is asked of a block. Every call on both begins with
// these.
pub fn check_block(code: Code, l: u32, p: u32, soft: &[i16]) -> Result<(), Refusal>
    ensures { (arikan : Bool) → refused result ≡ first (code_faults (definitions.code code.entry.m arikan code.entry.map.now code.entry.pairs.now)
        ++ run_faults (2 ^ code.entry.m) l p soft.now) }
{
    code.check()?;
    check_run(size(code.m), l, p, soft)
}

// An output has too few places: l rows of n bytes are `area` bytes.
fn outputs_short(area: usize, l: usize, room: Room) -> bool
    ensures { result ≡ (ltb room.inputs area || (ltb room.words area || ltb room.scores l)) }
{
    room.inputs < area || room.words < area || room.scores < l
}

// Refusals 8 to 10, from the lengths of what is lent.
fn check_tables(n: usize, l: usize, room: Room) -> Result<(), Refusal>
    requires { (n ≤ 1024) × (l ≤ 32) }
    ensures { refused result ≡ first (table_faults n l (places_of room)) }
{
    let area = times(n, l);
    let small = times(4 * n + 256, l);
    let few_numbers = room.numbers < 32 * area;
    let few_bytes = room.bytes < small;
    let few_places = outputs_short(area, l, room);
    if few_numbers {
        return Err(Refusal::NumberTables);
    }
    if few_bytes {
        return Err(Refusal::ByteTables);
    }
    if few_places {
        return Err(Refusal::Room);
    }
    Ok(())
}

// What a call is refused for, from what is shared and the lengths of what is lent, whatever the transform is.
pub fn check_decode(code: Code, l: u32, p: u32, soft: &[i16], room: Room) -> Result<(), Refusal>
    ensures { (arikan : Bool) → refused result ≡ first (decode_faults (definitions.code code.entry.m arikan code.entry.map.now code.entry.pairs.now)
        l p soft.now (places_of room)) }
{
    check_block(code, l, p, soft)?;
    check_tables(size(code.m), l as usize, room)
}
