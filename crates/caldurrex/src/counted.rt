// The answer of the list of words for a host that has no enum.
ghost use Rattle.std.specs.Prelude.{◌≡◌};
ghost use Rattle.list_words.specs.Answers.{answer_of};
ghost use Rattle.caldurrex.specs.CountFields.{count_fields_of};

use refusals::Refusal;

// 0 and how many words there are; else the refusal number, and 0.
#[repr(C)]
#[derive(Drop)]
pub struct CountedFields {
    pub refusal: u32,
    pub count: u32,
}

impl From<Result<u32, Refusal>> for CountedFields {
    ghost from_gives = { λ answer told. told ≡ count_fields_of (answer_of answer) };

    fn from(answer: Result<u32, Refusal>) -> CountedFields {
        match answer {
            Ok(count) => CountedFields { refusal: 0, count },
            Err(refusal) => CountedFields {
                refusal: refusal.number(),
                count: 0,
            },
        }
    }
}
