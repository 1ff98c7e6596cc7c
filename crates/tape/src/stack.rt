// The ends of a stack's tapes: whether they can be, and whether a tape is too long. Each is looked at beside the one
// before it, 0 before the first: `is_sorted` and windows know no such first one.
ghost use Rattle.std.specs.Prelude.{◌≡◌};
ghost use Rattle.tape.specs.Stack.{ends_unfit, some_too_long};

use crate::MOST_BYTES;

pub const MOST_TAPES: usize = 8;

// Whether these are no ends of a stack, in a buffer of so many bytes: there are none, or more than
// eight, or one falls, or the last is not the number of bytes.
pub fn is_unfit(bytes: usize, ends: &[u32]) -> bool
    ensures { result ≡ ends_unfit bytes ends.now }
{
    if ends.is_empty() || MOST_TAPES < ends.len() {
        return true;
    }
    let mut place = 0;
    for &end in ends {
        let end = end as usize;
        if end < place {
            return true;
        }
        place = end;
    }
    place != bytes
}

// Whether a tape with one of these ends has more bytes than a tape may have.
pub fn has_too_long(ends: &[u32]) -> bool
    ensures { result ≡ some_too_long 0 ends.now }
{
    let mut place = 0;
    for &end in ends {
        let end = end as usize;
        if place + MOST_BYTES < end {
            return true;
        }
        place = end;
    }
    false
}
