// Decodes job records from standard input, each behind the two bytes of its length, low byte first, and prints their rows. Its input
// and what it must print are made by tests/make_records.c, with the reader and the decoder that are written from the rules alone.
#![tactic(auto)]

mod block;
mod dirty;
mod left;
mod lines;
mod print;
mod records;

fn main() {
    let mut input = io::large_buffer();
    let len = io::read_full(0, &mut input);
    records::decode_records(&input[..len]);
}
