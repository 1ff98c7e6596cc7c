// Whether stripes fit a picture, and the rows of one.
ghost use Rattle.std.specs.Prelude.{◌≡◌, true, cond, ◌≤◌, length, nat_lt, ◌==◌};
ghost use Rattle.compositor.specs.Settings.{picture_bytes};
ghost use Rattle.compositor.specs.Read.{strokes_in};
ghost use Rattle.compositor.specs.Painting.{cut};
ghost use Rattle.compositor.specs.Ready.{Lined};
ghost use Rattle.tape.specs.Outcome.{accepted, unless};
ghost use Rattle.tape.specs.Answer.{outcome_of};
ghost use Rattle.job.specs.Stripes.{first_row, has_stripe, stripes_fault, division_of};
ghost use Rattle.job.specs.Work.{on_stripe};

use crate::Stripes;
use compositor::strokes::Window;
use compositor::{Laid, Settings, strokes};
use font::Rows;
use tape::{Cause, Refusal};

pub const MOST_STRIPES: usize = 64;

// Refuses stripes that are too many, or whose ends do not rise from the picture's first row to its height. Each end is
// looked at beside the one before it, 0 before the first, which `is_sorted_by` does not know.
pub fn check(s: Settings, stripes: Stripes) -> Result<(), Refusal>
    ensures { outcome_of result ≡ unless (stripes_fault s (division_of stripes)) 0 (accepted tt) }
{
    let count = stripes.stripe_count as usize;
    if MOST_STRIPES < count {
        return Err(Cause::StripesUnfit.at(0));
    }
    let mut row = 0;
    for &end in &stripes.end_rows[..count] {
        if end <= row {
            return Err(Cause::StripesUnfit.at(0));
        }
        row = end;
    }
    if row != s.height {
        return Err(Cause::StripesUnfit.at(0));
    }
    Ok(())
}

// The most strokes that a sound counter of stripe k says, of so many stripes.
pub fn most_counted(count: usize, k: usize, total: usize) -> usize
    ensures { result ≡ cond (nat_lt k count) total 0 }
{
    if k < count { total } else { 0 }
}

// The first row of stripe k.
fn first_row(stripes: Stripes, k: usize) -> usize
    requires { has_stripe (division_of stripes) k ≡ true }
    ensures { result ≡ first_row (division_of stripes) k }
{
    if k == 0 {
        return 0;
    }
    stripes.end_rows[k - 1] as usize
}

// Draws strokes of the caption that lies in the workspace on the rows of stripe k. The rows are lent,
// so that no other can be reached.
pub fn draw_stripe(
    laid: Laid,
    ws: &[u8],
    picture: &mut [u8],
    stripes: Stripes,
    k: usize,
    window: Window,
)
    requires { (picture_bytes laid.layout.settings ≤ length picture.old) × Lined ws.now laid.lines
        × (stripes_fault laid.layout.settings (division_of stripes) ≡ 0)
        × (has_stripe (division_of stripes) k ≡ true) }
    ensures { picture.new
        ≡ on_stripe laid.layout.settings (division_of stripes) k
        (cut window (strokes_in laid.layout.settings ws.now laid.lines)) picture.old }
{
    let first = first_row(stripes, k);
    let end = stripes.end_rows[k] as usize;
    let count = end - first;
    let width = laid.layout.settings.width as usize;
    let from = first * (4 * width);
    let to = end * (4 * width);
    let rows = Rows {
        width,
        count,
        first,
    };
    let part = &mut picture[from..to];
    strokes::draw_lines(part, rows, ws, laid, window);
}
