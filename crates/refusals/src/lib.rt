// Why a call is not served, and the number of it that a host is told.
#![tactic(auto)]

mod room;

ghost use Rattle.std.specs.Prelude.{◌≡◌, ◌<◌};
ghost use Rattle.refusals.specs.Number.{number_of, refused};

pub use room::Room;

// The conditions of the rules, each with its number.
#[derive(Clone, Copy, Debug, PartialEq, Eq)]
pub enum Refusal {
    // m outside 2 to 10
    Exponent = 1,
    // a frozen map of another length than n positions have
    MapLength = 2,
    // a bit of the map set past n
    MapPastEnd = 3,
    // a list size or a row count outside 1 to 32
    ListSize = 4,
    // a stop position above n
    StopPosition = 5,
    // a payload, a word, soft values, samples or rows that are not as many as the code has
    GivenLength = 6,
    // a soft value out of range
    SoftValue = 7,
    // number tables or byte tables too short
    NumberTables = 8,
    ByteTables = 9,
    // an output too short
    Room = 10,
    // a byte above 1 where bits are given
    NotBits = 11,
    // a word outside the code: a frozen bit that breaks its rule
    OutsideCode = 12,
    // a record of the wrong length
    RecordLength = 13,
    // a map of fields with other bits
    FieldMap = 14,
    // pairs that break their rules
    Pairs = 15,
    // more words than the scores have places for
    ManyWords = 19,
    // k above 20
    PayloadSize = 20,
    // a packed bit past n
    PackedBits = 21,
    // scores that rise, a frame number 0 that stands there, a ceiling below the first score or as large
    ScoreOrder = 22,
    // a record after the thousandth
    RecordCount = 23,
    // the state 0
    State = 24,
}

impl Refusal {
    pub fn number(self) -> u32
        ensures { (result ≡ number_of self) × (0 < result) }
    {
        self as u32
    }
}

// 0 for a call that is served, else the number of its refusal.
pub fn number_for_host(answer: Result<(), Refusal>) -> u32
    ensures { result ≡ refused answer }
{
    match answer {
        Ok(()) => 0,
        Err(refusal) => refusal.number(),
    }
}
