// The decoder's answer for a host that has no enum.
ghost use Rattle.std.specs.Prelude.{◌≡◌};
ghost use Rattle.decoder.specs.Answers.{answer_of};
ghost use Rattle.caldurrex.specs.Fields.{fields_of};

use decoder::Decoded;
use refusals::Refusal;

// 0, the row count and the ceiling of a call that is served; else the refusal number, and 0 in both.
#[repr(C)]
#[derive(Drop)]
pub struct DecodedFields {
    pub refusal: u32,
    pub rows: u32,
    pub ceiling: i32,
}

impl From<Result<Decoded, Refusal>> for DecodedFields {
    ghost from_gives = { λ answer told. told ≡ fields_of (answer_of answer) };

    fn from(answer: Result<Decoded, Refusal>) -> DecodedFields {
        match answer {
            Ok(decoded) => DecodedFields {
                refusal: 0,
                rows: decoded.rows,
                ceiling: decoded.ceiling,
            },
            Err(refusal) => DecodedFields {
                refusal: refusal.number(),
                rows: 0,
                ceiling: 0,
            },
        }
    }
}
