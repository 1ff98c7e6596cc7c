// The most columns of a line.
ghost use Rattle.std.specs.Prelude.{◌≤◌};
ghost use Rattle.wrap.specs.Wrap.{most_columns};

use tape::{Cause, Refusal};

const MOST_COLUMNS: u32 = 4096;

// A column limit within its range.
#[derive(Clone, Copy)]
pub struct Limit {
    pub columns: usize,
    ghost some: { 1 ≤ columns },
    ghost few: { columns ≤ most_columns },
}

impl TryFrom<u32> for Limit {
    ghost use Rattle.wrap.specs.Limited.{Limited};

    type Error = Refusal;

    ghost try_from_gives = { Limited };

    fn try_from(columns: u32) -> Result<Limit, Refusal>
        ensures { Limited columns result }
    {
        if !(1..=MOST_COLUMNS).contains(&columns) {
            return Err(Cause::OutOfRange.at(0));
        }
        Ok(Limit {
            columns: columns as usize,
        })
    }
}
