// The transform of four bits, tabulated: bit i of the index is u_i, bit j of the entry is c_j. Taken four times it gives back the
// index, so that taken three times it is the inverse.
ghost use Rattle.std.specs.Prelude.{◌≡◌, ◌<◌};
ghost use Rattle.spec.specs.Transform.{table_entry};
ghost use Rattle.transform.specs.Word.{turned_entry};

const TABLE: [u8; 16] = [0, 1, 3, 2, 6, 7, 5, 4, 15, 14, 12, 13, 9, 8, 10, 11];

fn entry(x: u8) -> u8
    requires { x < 16 }
    ensures { (result ≡ table_entry x) × (result < 16) }
{
    TABLE[x as usize]
}

// The entry, or where INVERSE is true the index whose entry x is.
pub(crate) fn turned_entry<const INVERSE: bool>(x: u8) -> u8
    requires { x < 16 }
    ensures { (result ≡ turned_entry INVERSE x) × (result < 16) }
{
    if INVERSE {
        entry(entry(entry(x)))
    } else {
        entry(x)
    }
}
