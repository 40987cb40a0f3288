// A record whose shape is right: its fields, as they stand or what their absence means, its scores, and its packed rows.
ghost use Rattle.std.specs.Prelude.{◌≡◌, ◌<◌, get_or, pos};
ghost use Rattle.spec.specs.ResultRecord.{first_score, row_count, result_frame, result_scores, result_ceiling, packed_part};
ghost use Rattle.result_fields.specs.Laid.{Laid};

use crate::layout::{Layout, ceiling_at};
use numbers::{four, signed_four};

// The bytes, and where their parts lie.
#[derive(Clone, Copy)]
pub struct ResultRecord<'a> {
    pub bytes: &'a [u8],
    pub at: Layout,
    pub ghost laid: { Laid bytes.now at },
}

impl<'a> ResultRecord<'a> {
    pub fn frame_number(self) -> u32
        ensures { result ≡ result_frame self.entry.bytes.now }
    {
        if self.at.fields % 2 == 0 {
            return 0;
        }
        four(self.bytes, 3)
    }

    // The score of rank i.
    pub fn score(self, i: usize) -> i32
        requires { i < row_count self.bytes.now }
        ensures { result ≡ get_or (result_scores self.entry.bytes.now) i (pos 0) }
    {
        signed_four(self.bytes, self.at.scores + 4 * i)
    }

    pub fn first_score(self) -> i32
        ensures { result ≡ first_score (result_scores self.entry.bytes.now) }
    {
        self.score(0)
    }

    pub fn ceiling(self) -> i32
        ensures { result ≡ result_ceiling self.entry.bytes.now }
    {
        if self.at.fields / 2 % 2 == 0 {
            return self.first_score();
        }
        signed_four(self.bytes, ceiling_at(self.at.fields))
    }

    pub fn packed_rows(self) -> &'a [u8]
        ensures { result.now ≡ packed_part self.entry.bytes.now }
    {
        &self.bytes[self.at.packed..]
    }
}
