// The test load for a host that has no enum: the answer as three numbers.
ghost use Rattle.std.specs.Prelude.{◌≡◌};
ghost use Rattle.test_load.specs.Answer.{load_of, host_load};

use crate::Load;
use refusals::Refusal;

// 0, the length of the record and the next state; else the refusal number, and 0 twice.
#[repr(C)]
#[derive(Drop)]
pub struct LoadFields {
    pub refusal: u32,
    pub length: u32,
    pub state: u32,
}

impl From<Result<Load, Refusal>> for LoadFields {
    ghost from_gives = { λ answer told. told ≡ host_load (load_of answer) };

    fn from(answer: Result<Load, Refusal>) -> LoadFields {
        match answer {
            Ok(load) => LoadFields {
                refusal: 0,
                length: load.length,
                state: load.state,
            },
            Err(refusal) => LoadFields {
                refusal: refusal.number(),
                length: 0,
                state: 0,
            },
        }
    }
}
