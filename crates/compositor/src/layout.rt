// Where lines stand. Positions are counted from the font's origin.
ghost use Rattle.std.specs.Prelude.{◌≡◌, cond, ◌+◌, ◌*◌, ◌/◌, ◌≤◌, ◌<◌, length};
ghost use Rattle.tape.specs.Command.{most_letters};
ghost use Rattle.wrap.specs.Laid.{table_from, columns_on};
ghost use Rattle.compositor.specs.Settings.{most_pixels, most_line_height, most_outline_cap, picture_bytes};
ghost use Rattle.compositor.specs.Layout.{column_limit, line_height, last_base_line, base_line, line_width, line_start};
ghost use Rattle.compositor.specs.Outline.{outline_of};
ghost use Rattle.font.specs.Paint.{origin};
ghost use Rattle.compositor.specs.Ready.{InRange, too_wide, least_start};

use crate::Settings;
use font::{BitmapFont, ORIGIN};
use wrap::Limit;

// Settings within their range.
#[derive(Clone, Copy)]
pub struct Layout {
    pub settings: Settings,
    ghost in_range: { InRange settings },
}

impl Layout {
    pub fn picture_bytes(self) -> usize
        ensures { result ≡ picture_bytes self.settings }
    {
        self.settings.height as usize * (4 * self.settings.width as usize)
    }

    // The slant of an italic letter, or of an upright one.
    pub(crate) fn slant_of(self, italic: bool) -> u32
        ensures { result ≡ cond italic self.settings.slant 0 }
    {
        if italic { self.settings.slant } else { 0 }
    }

    // The outline as it is drawn.
    pub(crate) fn outline(self) -> usize
        ensures { (result ≡ outline_of self.settings) × (result ≤ most_outline_cap) }
    {
        self.settings.outline_px.min(self.settings.outline_cap_px) as usize
    }

    // The strokes of a letter with ink: its outline's, and its own.
    pub(crate) fn letter_strokes(self) -> usize
        ensures { (result ≡ 1 + 8 * outline_of self.settings) × (result ≤ 1 + 8 * most_outline_cap) }
    {
        1 + 8 * self.outline()
    }

    // The most columns of a line.
    pub(crate) fn column_limit(self) -> Limit
        ensures { result.columns ≡ column_limit self.settings }
    {
        let columns = (self.settings.width / BitmapFont::CELL_W).max(1) as usize;
        Limit { columns }
    }

    fn line_height(self) -> usize
        ensures { (result ≡ line_height self.settings) × (result ≤ most_line_height) }
    {
        self.settings.line_height_px.max(BitmapFont::CELL_H) as usize
    }

    // The picture's row on which the last line's base line stands.
    fn last_baseline(self) -> usize
        ensures { (result ≡ last_base_line self.settings) × (result ≤ most_pixels) }
    {
        let descent = BitmapFont::CELL_H - BitmapFont::BEARING_Y;
        let lowest = self
            .settings
            .height
            .saturating_sub(self.settings.bottom_margin_px);
        lowest.saturating_sub(descent) as usize
    }

    // The position of the base line of the line that has so many lines below it.
    #[tactic(auto, using(crate::proofs::Ranges::rise), unfolding(crate::specs::Layout::base_line))]
    pub(crate) fn baseline(self, below: usize) -> usize
        requires { below ≤ most_letters }
        ensures { (result ≡ base_line self.settings below) × (32 ≤ result) × (result + 16 < 2 * origin) }
    {
        ORIGIN + self.last_baseline() - below * self.line_height()
    }

    // Where a line of w pixels starts.
    #[tactic(auto, unfolding(crate::specs::Layout::line_start))]
    pub(crate) fn line_start(self, w: usize) -> usize
        requires { w < too_wide }
        ensures { (result ≡ line_start self.settings w) × (least_start ≤ result) × (result ≤ origin + most_pixels) }
    {
        let width = self.settings.width as usize;
        let margin = self.settings.side_margin_px as usize;
        match self.settings.align {
            0 => ORIGIN + width.saturating_sub(w) / 2 - w.saturating_sub(width) / 2,
            1 | 2 => ORIGIN + margin,
            _ => ORIGIN + width - w - margin,
        }
    }
}

// The pixels of a line of the workspace's table.
pub fn measure_line(ws: &[u8], line: usize) -> usize
    requires { table_from + 4 * line + 4 ≤ length ws.now }
    ensures { (result ≡ line_width (columns_on ws.now line)) × (result < too_wide) }
{
    wrap::laid::columns_on(ws, line) * BitmapFont::CELL_W as usize
}
