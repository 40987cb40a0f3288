// Makes the calls of its input, one a line, and prints what each gave. A line is a description, a colon, the call's name and what the
// call is given: labels and numbers, one space before each. The description is printed in front of the answer, and a line with no colon
// is printed alone. Everything lent holds 5 before the call.
#![tactic(auto)]

mod blocks;
mod calls;
mod coding;
mod decoding;
mod lines;
mod listing;
mod lists;
mod loading;
mod results;
mod sampling;
mod say;
mod writing;

use blocks::block_line;
use calls::{Call, call_of};
use coding::code_line;
use lines::{find, word_end};
use results::{read_line, write_line};
use sampling::sample_line;
use say::say;

fn run_call(call: &[u8]) {
    let at = word_end(call, 1);
    let Some(name) = call_of(call) else {
        return;
    };
    match name {
        Call::Encode | Call::Extract => code_line(name, call, at),
        Call::Quantise => sample_line(call, at),
        Call::WriteResult => write_line(call, at),
        Call::ReadAsCustomer => read_line(false, call, at),
        Call::ReadAsOperator => read_line(true, call, at),
        _ => block_line(name, call, at),
    }
}

fn run_line(line: &[u8]) {
    let colon = find(line, 0, b':');
    say(&line[..colon]);
    run_call(&line[colon..]);
    say(b"\n");
}

// A `while`, since how far a turn goes is in the text.
fn run(text: &[u8]) {
    let mut at = 0;
    while at < text.len() {
        let end = find(text, at, b'\n');
        run_line(&text[at..end]);
        at = end + 1;
    }
}

fn main() {
    let mut text = [0u8; 24576];
    let len = io::read_full(0, &mut text);
    run(&text[..len]);
}
