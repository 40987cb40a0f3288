// Where the parts of a record lie. Each of the bits 0 to 2 of the map of fields is worth as much as its field has bytes, so the bits below
// a field's own say how far behind m it begins.
ghost use Rattle.std.specs.Prelude.{◌≡◌, ◌+◌, ◌≤◌};
ghost use Rattle.spec.specs.Code.{map_bytes};
ghost use Rattle.spec.specs.Record.{stop_at, frame_at, map_at};

// The map of fields, m, n, the number of pairs, and where the frozen map, the pairs and the soft values begin. The pairs end where the soft
// values begin.
#[derive(Clone, Copy)]
pub struct Layout {
    pub fields: u32,
    pub m: u32,
    pub n: usize,
    pub count: u32,
    pub map: usize,
    pub pairs: usize,
    pub soft: usize,
}

impl Layout {
    ghost use Rattle.std.specs.Prelude.{List, ℕ};
    ghost use Rattle.spec.specs.Record.{is_arikan};
    ghost use Rattle.job_fields.specs.Laid.{Laid};

    // Bit 4 of the map of fields: the transform is Arikan's.
    pub fn is_arikan(self) -> bool
        ensures { (bytes : List ℕ) → Laid bytes self → result ≡ is_arikan bytes }
    {
        self.fields / 16 % 2 == 1
    }
}

pub(crate) fn stop_at(fields: u32) -> usize
    ensures { (result ≡ stop_at fields) × (result ≤ 3) }
{
    2 + (fields % 2) as usize
}

pub(crate) fn frame_at(fields: u32) -> usize
    ensures { (result ≡ frame_at fields) × (result ≤ 5) }
{
    2 + (fields % 4) as usize
}

pub fn map_at(fields: u32) -> usize
    ensures { (result ≡ map_at fields) × (result ≤ 9) }
{
    2 + (fields % 8) as usize
}

// Where the frozen map of n positions ends.
pub fn map_end(fields: u32, n: usize) -> usize
    requires { n ≤ 1024 }
    ensures { (result ≡ map_at fields + map_bytes n) × (result ≤ 137) }
{
    map_at(fields) + (n + 7) / 8
}
