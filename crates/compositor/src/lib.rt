// The compositor: draws a cue's letters, outlined, on a cleared picture.
// Carried over from `Compositor` of src/compositor.rs of oxideav-subtitle; what is drawn is in specs/.
// `ws` is the workspace throughout. A call's parameters are document 01's, and are handed on as they are.
#![tactic(auto)]

mod layout;
pub mod strokes;

ghost use Rattle.std.specs.Prelude.{◌≡◌, ◌++◌, ◌≤◌, length, drop, replicate};
ghost use Rattle.tape.specs.Tape.{most_bytes, least_room};
ghost use Rattle.compositor.specs.Settings.{out_of_range, picture_bytes};
ghost use Rattle.compositor.specs.Draw.{tape_strokes, draw_picture};
ghost use Rattle.compositor.specs.Drawn.{Drawn};
ghost use Rattle.compositor.specs.Read.{strokes_in};
ghost use Rattle.compositor.specs.Ready.{Lined};
ghost use Rattle.compositor.specs.Checked.{Ranged, Checked, CueRead};
ghost use Rattle.tape.specs.Answer.{outcome_of};

use font::Rows;
pub use layout::Layout;
use strokes::Window;
use tape::{Answer, Cause, Refusal, Style};

const MOST_PIXELS: u32 = 4096;

const MOST_LINE_HEIGHT: u32 = 1024;

// Alignments and glyph modes stay numbers, no enums: a call may be given any.
const LAST_ALIGN: u32 = 4;

const LAST_GLYPH_MODE: u32 = 1;

const MOST_SIDE_MARGIN: u32 = 255;

const MOST_OUTLINE_CAP: u32 = 4;

// The twelve settings, in the order in which they are kept. Sizes are in pixels; colors are red, green,
// blue, alpha; `align`, the alignment, is 0 centre, 1 left, 2 start, which is as left, 3 right, 4 end,
// which is as right; `glyph_mode` 1 draws four curly quotes and two dashes as plain ones, 0 as boxes;
// `side_margin_px` is how far a line that is aligned left or right stays from that side; `slant` is how
// far italic letters lean, in eighths of a cell's width; `outline_cap_px` is the most of the outline that
// is drawn.
#[derive(Clone, Copy)]
pub struct Settings {
    pub width: u32,
    pub height: u32,
    pub default_color: [u8; 4],
    pub outline_color: [u8; 4],
    pub line_height_px: u32,
    pub bottom_margin_px: u32,
    pub outline_px: u32,
    pub align: u32,
    pub glyph_mode: u32,
    pub side_margin_px: u32,
    pub slant: u32,
    pub outline_cap_px: u32,
}

impl Settings {
    #[tactic(auto, unfolding(crate::specs::Settings::out_of_range))]
    fn is_out_of_range(self) -> bool
        ensures { result ≡ out_of_range self }
    {
        MOST_PIXELS < self.width
            || MOST_PIXELS < self.height
            || MOST_LINE_HEIGHT < self.line_height_px
            || LAST_ALIGN < self.align
            || LAST_GLYPH_MODE < self.glyph_mode
            || MOST_SIDE_MARGIN < self.side_margin_px
            || font::MOST_SLANT < self.slant
            || MOST_OUTLINE_CAP < self.outline_cap_px
    }
}

impl TryFrom<Settings> for Layout {
    type Error = Refusal;

    ghost try_from_gives = { Ranged };

    fn try_from(settings: Settings) -> Result<Layout, Refusal>
        ensures { Ranged settings result }
    {
        if settings.is_out_of_range() {
            return Err(Cause::OutOfRange.at(0));
        }
        Ok(Layout { settings })
    }
}

// A caption that lies in the workspace, wrapped: how many lines it has, and strokes.
#[derive(Clone, Copy)]
pub struct Laid {
    pub layout: Layout,
    pub lines: usize,
    pub strokes: usize,
}

// Checks what every call that draws checks before it reads a tape, for a workspace of `room` bytes and
// a picture's buffer of `size`.
pub fn check(s: Settings, tape: &[u8], room: usize, size: usize) -> Result<Layout, Refusal>
    ensures { Checked s tape.now room size result }
{
    let layout = Layout::try_from(s)?;
    if size < layout.picture_bytes() {
        return Err(Cause::PictureTooShort.at(0));
    }
    if tape::MOST_BYTES < tape.len() {
        return Err(Cause::TapeTooLong.at(0));
    }
    if room < tape::LEAST_ROOM {
        return Err(Cause::WorkspaceTooShort.at(0));
    }
    Ok(layout)
}

// Reads a tape and puts its letters on lines.
pub fn lay_cue(layout: Layout, tape: &[u8], ws: &mut [u8]) -> Result<Laid, Refusal>
    requires { (length tape.now ≤ most_bytes) × (least_room ≤ length ws.old) }
    ensures { CueRead layout.settings (tape_strokes layout.settings tape.now) ws.old ws.new result }
{
    let style = Style::default_with(layout.settings.default_color);
    let count = tape::read_tape(tape, ws, style)?;
    let made = wrap::wrap_runs(ws, count, layout.column_limit());
    Ok(Laid {
        layout,
        lines: made.lines,
        strokes: made.inked * layout.letter_strokes(),
    })
}

// Zeroes the first `size` bytes: a caller may lend more than the picture has.
pub fn clear(picture: &mut [u8], size: usize)
    requires { size ≤ length picture.old }
    ensures { picture.new ≡ replicate size 0 ++ drop size picture.old }
{
    picture[..size].fill(0);
}

// Draws the caption that lies in the workspace, all its strokes, on a cleared picture.
fn draw_cue(laid: Laid, ws: &[u8], picture: &mut [u8])
    requires { (picture_bytes laid.layout.settings ≤ length picture.old) × Lined ws.now laid.lines
        × (laid.strokes ≡ length (strokes_in laid.layout.settings ws.now laid.lines)) }
    ensures { picture.new
        ≡ draw_picture laid.layout.settings picture.old (strokes_in laid.layout.settings ws.now laid.lines) }
{
    let layout = laid.layout;
    clear(picture, layout.picture_bytes());
    let rows = Rows {
        width: layout.settings.width as usize,
        count: layout.settings.height as usize,
        first: 0,
    };
    let total = laid.strokes;
    let all = Window { from: 0, to: total };
    strokes::draw_lines(picture, rows, ws, laid, all);
}

// The call Draw: the picture then shows the tape's caption on zeros, and the answer is how many
// strokes it has. A refusal leaves the picture as it is.
pub fn render_into(s: Settings, tape: &[u8], ws: &mut [u8], picture: &mut [u8]) -> Answer
    ensures { Drawn s tape.now ws.old ws.new picture.old picture.new (outcome_of result) }
{
    let layout = check(s, tape, ws.len(), picture.len())?;
    let laid = lay_cue(layout, tape, ws)?;
    draw_cue(laid, ws, picture);
    Ok(laid.strokes)
}
