// A record of the right shape: its fields as they stand or what their absence means, its frozen map, its pairs and its soft values.
ghost use Rattle.std.specs.Prelude.{◌≡◌, ◌<◌, get_or, pos};
ghost use Rattle.spec.specs.Record.{positions, list_size, stop_position, frame_number, record_map, record_pairs, record_soft};
ghost use Rattle.job_fields.specs.Laid.{Laid};

use crate::layout::{Layout, frame_at, stop_at};
use crate::values::soft_value;
use numbers::{four, two, wide};

// The bytes, and the layout of them.
#[derive(Clone, Copy)]
pub struct JobRecord<'a> {
    pub bytes: &'a [u8],
    pub at: Layout,
    pub ghost laid: { Laid bytes.now at },
}

impl<'a> JobRecord<'a> {
    pub fn list_size(self) -> u32
        ensures { result ≡ list_size self.entry.bytes.now }
    {
        if self.at.fields % 2 == 0 {
            return 4;
        }
        wide(self.bytes[2])
    }

    pub fn stop_position(self) -> u32
        ensures { result ≡ stop_position self.entry.bytes.now }
    {
        if self.at.fields / 2 % 2 == 0 {
            return self.at.n as u32;
        }
        two(self.bytes, stop_at(self.at.fields))
    }

    pub fn frame_number(self) -> u32
        ensures { result ≡ frame_number self.entry.bytes.now }
    {
        if self.at.fields / 4 % 2 == 0 {
            return 0;
        }
        four(self.bytes, frame_at(self.at.fields))
    }

    // The frozen map.
    pub fn map(self) -> &'a [u8]
        ensures { result.now ≡ record_map self.entry.bytes.now }
    {
        let from = self.at.map;
        let to = from + (self.at.n + 7) / 8;
        &self.bytes[from..to]
    }

    // The pairs, four bytes each.
    pub fn pairs(self) -> &'a [u8]
        ensures { result.now ≡ record_pairs self.entry.bytes.now }
    {
        &self.bytes[self.at.pairs..self.at.soft]
    }

    // The soft value of position i, as it stands.
    pub fn soft(self, i: usize) -> i16
        requires { i < positions self.bytes.now }
        ensures { result ≡ get_or (record_soft self.entry.bytes.now) i (pos 0) }
    {
        soft_value(self.bytes, self.at.soft + 2 * i)
    }
}
