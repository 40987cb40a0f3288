// The page for the shift log: result records back to back from standard input, a line for each as soon as it is there, and a last line.
#![tactic(auto)]

ghost use Rattle.std.specs.Prelude.{◌≡◌, ◌≤◌, length, take};
ghost use Rattle.log_page.specs.Reading.{extent};

use log_page::{Totals, needed, write_step};
use std::ops::ControlFlow;

// Reads the next record to the front of `input`, and no byte further than is needed. Returns how many bytes there are: fewer than needed
// where the input stops, and 0 at its end.
fn take_record(records: u32, input: &mut [u8]) -> usize
    requires { length input.old ≡ 4235 }
    ensures { (result ≤ 4235) × (result ≤ extent records (take result input.new)) }
{
    let mut n = 0;
    let mut to = 1;
    // A while loop: how far a round reads depends on the bytes that are there.
    while n < to {
        let got = io::read_full(0, &mut input[n..to]);
        n += got;
        if n < to {
            return n;
        }
        to = needed(records, &input[..n]);
    }
    n
}

fn main() {
    let mut input = [0u8; 4235];
    let mut out = [0u8; 88];
    let mut totals = Totals {
        records: 0,
        rows: 0,
    };
    // A `loop`, since the page ends where its input does.
    loop {
        let n = take_record(totals.records, &mut input);
        let step = write_step(totals, &input[..n], &mut out);
        let count = step.count;
        if !io::write_all(1, &out[..count]) {
            break;
        }
        match step.flow {
            ControlFlow::Continue(next) => totals = next,
            ControlFlow::Break(_) => break,
        }
    }
}
