// Types in the records: kind 32 is an array, its word the length, and its element's type follows; any other kind ends the type.
ghost use Rattle.types.specs.Place.{IsTypeAt, Last, Read};

use crate::{MOST_LEVELS, Typ, Typed};
use lustre::{Records, kinds};

// The last record of the type at a place.
pub fn last_of(records: &Records, at: usize) -> usize
    requires { IsTypeAt records.now.kinds.now records.now.words.now at }
    ensures { Last records.now.kinds.now records.now.words.now at result }
{
    // Kept: with `take_while` and `count` wide structs took a sixth more instructions (docs/PERFORMANCE.md).
    let mut last = at;
    while records.kinds[last] == kinds::ARRAY_TYPE {
        last += 1;
    }
    last
}

// The type at a place: at most 67 lengths, the last record's first.
pub fn read_type(records: &Records, at: usize) -> Typed
    requires { IsTypeAt records.now.kinds.now records.now.words.now at }
    ensures { Read records.now.kinds.now records.now.words.now at result.typ result.next }
{
    let last = last_of(records, at);
    let levels = last - at;
    let mut lengths = [0; MOST_LEVELS];
    for i in 0..levels {
        lengths[i] = records.words[last - 1 - i] as u32;
    }
    let typ = Typ {
        base: records.kinds[last],
        name: records.words[last],
        levels,
        lengths,
    };
    Typed {
        typ,
        next: last + 1,
    }
}
