// What a reader answers, for a host that has no enum: five numbers.
ghost use Rattle.std.specs.Prelude.{◌≡◌};
ghost use Rattle.result.specs.Answer.{answer_of, fields_of};

use crate::ResultHead;
use refusals::Refusal;

// 0 and the fields of a record that is read; else the refusal number, and 0 in each field.
#[repr(C)]
#[derive(Drop)]
pub struct ResultFields {
    pub refusal: u32,
    pub m: u32,
    pub rows: u32,
    pub frame: u32,
    pub ceiling: i32,
}

impl From<Result<ResultHead, Refusal>> for ResultFields {
    ghost from_gives = { λ answer told. told ≡ fields_of (answer_of answer) };

    fn from(answer: Result<ResultHead, Refusal>) -> ResultFields {
        match answer {
            Ok(head) => ResultFields {
                refusal: 0,
                m: head.m,
                rows: head.rows,
                frame: head.frame,
                ceiling: head.ceiling,
            },
            Err(refusal) => ResultFields {
                refusal: refusal.number(),
                m: 0,
                rows: 0,
                frame: 0,
                ceiling: 0,
            },
        }
    }
}
