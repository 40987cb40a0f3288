// What a writer answers, the length of the record that it wrote, for a host that has no enum.
ghost use Rattle.std.specs.Prelude.{◌≡◌};
ghost use Rattle.record_writer.specs.Answer.{length_of, host_length};

use refusals::Refusal;

// 0 and the length; else the refusal number, and 0.
#[repr(C)]
#[derive(Drop)]
pub struct RecordLength {
    pub refusal: u32,
    pub length: u32,
}

impl From<Result<u32, Refusal>> for RecordLength {
    ghost from_gives = { λ answer told. told ≡ host_length (length_of answer) };

    fn from(answer: Result<u32, Refusal>) -> RecordLength {
        match answer {
            Ok(length) => RecordLength { refusal: 0, length },
            Err(refusal) => RecordLength {
                refusal: refusal.number(),
                length: 0,
            },
        }
    }
}
