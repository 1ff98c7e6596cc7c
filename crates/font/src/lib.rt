// The bitmap font: two glyph tables, the pen, and the painter of one stroke.
// Carried over from src/font.rs of oxideav-subtitle; what the crate means is in specs/.
#![tactic(auto)]

mod paint;
mod tables;

ghost use Rattle.std.specs.Prelude.{◌≡◌, ◌<◌, ◌≤◌, true, false};
ghost use Rattle.font.specs.Modes.{drawn_code};
ghost use Rattle.font.specs.Font.{table_of, glyph_rows};
ghost use Rattle.font.specs.Ink.{is_inked};
ghost use Rattle.font.specs.Colors.{color_bytes};
ghost use Rattle.font.specs.Slant.{most_slant, row_offset, row_offsets};
ghost use Rattle.font.specs.Shear.{font_of, pen_of, slant_of, Shear, Moved, rounded};

pub use paint::{ORIGIN, Rows, Spot, draw_glyph_sheared, draw_lowest_rows};

// A font: the bold mark that picks its table. The metrics, in pixels, are those of both fonts.
#[derive(Clone, Copy, PartialEq, Eq, Debug)]
pub struct BitmapFont {
    pub bold: bool,
}

impl BitmapFont {
    pub const CELL_W: u32 = 8;

    pub const CELL_H: u32 = 16;

    // How far the base line lies below a cell's top.
    pub const BEARING_Y: u32 = 12;

    // The two fonts, by the original's names, which document 01 keeps.
    pub fn default_regular() -> BitmapFont
        ensures { result ≡ font_of false }
    {
        BitmapFont { bold: false }
    }

    pub fn default_bold() -> BitmapFont
        ensures { result ≡ font_of true }
    {
        BitmapFont { bold: true }
    }

    // The font's rows. Each call lays the whole table out anew, so a caller takes it once and
    // lends it.
    pub fn table(self) -> [u8; 4096]
        ensures { result ≡ table_of self.bold }
    {
        if self.bold {
            tables::BOLD_TABLE
        } else {
            tables::REGULAR_TABLE
        }
    }
}

// What a glyph is looked up by: a code point, and the glyph mode that it is drawn in.
// The mode is a number, no enum: `glyph_rows` takes any, and `drawn_code` says what each draws.
#[derive(Clone, Copy, PartialEq, Eq, Debug)]
pub struct GlyphKey {
    pub mode: u32,
    pub code: u32,
}

impl GlyphKey {
    // The code point whose glyph is drawn.
    #[tactic(auto, unfolding(crate::specs::Modes::replaced))]
    fn drawn_code(self) -> u32
        ensures { result ≡ drawn_code self.mode self.code }
    {
        match (self.mode, self.code) {
            (1, 0x2018 | 0x2019) => 0x27,
            (1, 0x201c | 0x201d) => 0x22,
            (1, 0x2013 | 0x2014) => 0x2d,
            (_, code) => code,
        }
    }
}

// A glyph's rows out of a font's table.
pub fn glyph_rows(table: &[u8; 4096], key: GlyphKey) -> [u8; 16]
    ensures { result ≡ glyph_rows table.now key.mode key.code }
{
    let code = key.drawn_code();
    if 256 <= code {
        return tables::MISSING_GLYPH;
    }
    let at = code as usize * 16;
    let mut rows = [0; 16];
    rows.copy_from_slice(&table[at..at + 16]);
    rows
}

// Whether a code point's glyph has ink, which is alike in both fonts and in every mode.
pub fn has_ink(code: u32) -> bool
    ensures { result ≡ is_inked code }
{
    !matches!(code, 0..=0x20 | 0x7f..=0xa0 | 0xad)
}

// The bytes of a color 0xRRGGBBAA, by the name that the definitions have for them.
pub fn color_bytes(color: u32) -> [u8; 4]
    ensures { result ≡ color_bytes color }
{
    color.to_be_bytes()
}

// The largest slant, in eighths of a cell's width.
pub const MOST_SLANT: u32 = 8;

// The offset of a row that stays; that of a row that is moved is as much larger.
pub const UNMOVED: u8 = 8;

// What a stroke is drawn with: a color, the bold mark that picks the glyph, and how far the glyph's
// rows are sheared.
#[derive(Clone, Copy, PartialEq, Debug)]
pub struct Pen {
    pub color: [u8; 4],
    pub bold: bool,
    pub shear: f32,
}

impl Pen {
    // A slant of 0 is upright.
    pub fn new(color: [u8; 4], bold: bool, slant: u32) -> Pen
        requires { slant ≤ most_slant }
        ensures { result ≡ pen_of color bold slant }
    {
        let shear = BitmapFont::CELL_W as f32 * slant as f32 / 8.0;
        Pen { color, bold, shear }
    }

    // How far the pen moves each row of a glyph to the right, plus `UNMOVED`: worked out once for a
    // slant and lent to its strokes. By `array::from_fn` the proof did not close.
    #[tactic(auto, using(crate::proofs::ArrayFill::tabulated))]
    pub fn row_offsets(self) -> [u8; 16]
        requires { Shear self.shear }
        ensures { result ≡ row_offsets (slant_of self.shear) }
    {
        let mut offsets = [0; 16];
        for (r, offset) in offsets.iter_mut().enumerate() {
            *offset = row_offset(self.shear, r);
        }
        offsets
    }
}

// How far row r is moved to the right, plus `UNMOVED`.
fn row_offset(shear: f32, r: usize) -> u8
    requires { Shear shear × (r < 16) }
    ensures { result ≡ row_offset (slant_of shear) r }
{
    let from_baseline = BitmapFont::BEARING_Y as i16 - r as i16;
    round(from_baseline as f32 * shear / BitmapFont::CELL_H as f32)
}

// What a row moves by, to the nearest whole number, halves away from zero, plus `UNMOVED`. Twice x is
// cut and halved again. x is what one of the sixteen rows moves by at one of the nine slants: 144
// cases, and of no other x is anything said.
// Not `f32::round`: document 01 has the port round by a function of its own.
fn round(x: f32) -> u8
    requires { Moved x }
    ensures { result ≡ rounded x }
{
    let twice = std::num::truncating_f32_to_u64(x.abs() * 2.0);
    if x < 0.0 {
        UNMOVED - ((twice + 1) / 2) as u8
    } else {
        UNMOVED + ((twice + 1) / 2) as u8
    }
}
