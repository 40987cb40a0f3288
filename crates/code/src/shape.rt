// A code, its n, and the refusals 1 to 3 and 15 of it.
ghost use Rattle.std.specs.Prelude.{Bool, false, List, ◌≡◌, ℕ, ◌^◌, ◌≤◌, length};
ghost use Rattle.spec.specs.Code.{code, map_bytes, payload_size};
ghost use Rattle.spec.specs.Faults.{first};
ghost use Rattle.spec.specs.Refusals.{code_faults, past_end};
ghost use Rattle.refusals.specs.Number.{refused};

use crate::pairs::pairs_refused;
use crate::payload::payload_size;
use refusals::Refusal;

// m, whether the transform is Arikan's, and the frozen map and the pairs as bytes.
#[derive(Clone, Copy)]
pub struct Code<'a> {
    pub m: u32,
    pub arikan: bool,
    pub map: &'a [u8],
    pub pairs: &'a [u8],
}

// n
pub fn size(m: u32) -> usize
    requires { m ≤ 10 }
    ensures { (result ≡ 2 ^ m) × (result ≤ 1024) }
{
    1 << m
}

// A bit of the map is set past the last position: from eight positions on they fill their bytes.
fn past_end(m: u32, map: &[u8]) -> bool
    requires { (2 ≤ m) × (length map.now ≡ map_bytes (2 ^ m)) }
    ensures { result ≡ past_end (2 ^ m) map.now }
{
    m == 2 && map[0] > 15
}

impl Code<'_> {
    // Refusals 1 to 3 and 15, whatever the transform is.
    pub fn check(self) -> Result<(), Refusal>
        ensures { (arikan : Bool) → refused result ≡ first (code_faults (code self.entry.m arikan self.entry.map.now self.entry.pairs.now)) }
    {
        if self.m < 2 {
            return Err(Refusal::Exponent);
        }
        if self.m > 10 {
            return Err(Refusal::Exponent);
        }
        let n = size(self.m);
        if self.map.len() != (n + 7) / 8 {
            return Err(Refusal::MapLength);
        }
        let past = past_end(self.m, self.map);
        let wrong = pairs_refused(n, self.map, self.pairs);
        if past {
            return Err(Refusal::MapPastEnd);
        }
        if wrong {
            return Err(Refusal::Pairs);
        }
        Ok(())
    }

    // k, of a code of which no bit of the map is set past n, whatever the transform and the pairs are.
    pub fn payload_size(self) -> usize
        requires { (self.m ≤ 10) × (length self.map.now ≡ map_bytes (2 ^ self.m)) × (past_end (2 ^ self.m) self.map.now ≡ false) }
        ensures { (arikan : Bool) (pairs : List ℕ) → result ≡ payload_size (code self.entry.m arikan self.entry.map.now pairs) }
    {
        payload_size(self.m, self.map)
    }
}
