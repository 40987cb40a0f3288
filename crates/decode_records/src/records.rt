// The records, one after the other.
use crate::block::decode_fields;
use crate::print::print_refused;
use job::read_job;

fn decode_record(bytes: &[u8]) {
    let mut map = [170u8; 128];
    let mut soft = [-1i16; 1024];
    let mut pairs = [170u8; 1024];
    match read_job(bytes, &mut map, &mut soft, &mut pairs) {
        Ok(job) => decode_fields(job, &map, &pairs, &soft),
        Err(refusal) => print_refused(refusal),
    }
}

fn print_cut() {
    io::write_all(1, b"the input ends within a record\n");
}

// A record begins behind the two bytes of its length.
pub(crate) fn decode_records(input: &[u8]) {
    let mut rest = input;
    // A `while`, since how far to go on is what those two bytes say.
    while let Some((len, behind)) = rest.split_first_chunk::<2>() {
        let k = usize::from(u16::from_le_bytes(*len));
        if behind.len() < k {
            break;
        }
        let (record, next) = behind.split_at(k);
        decode_record(record);
        rest = next;
    }
    if !rest.is_empty() {
        print_cut();
    }
}
