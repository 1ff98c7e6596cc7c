// Blending, and painting one stroke into a picture's rows.
ghost use Rattle.std.specs.Prelude.{◌≡◌, ◌+◌, ◌-◌, ◌*◌, ◌<◌, ◌≤◌, min, length};
ghost use Rattle.font.specs.Blend.{blend_byte, blend_alpha, blend_pixel};
ghost use Rattle.font.specs.Slant.{unmoved};
ghost use Rattle.font.specs.Paint.{origin, paint_column, paint_bit, paint_row, each_row};
ghost use Rattle.font.specs.Upward.{part_after};
ghost use Rattle.font.specs.Shear.{pen_row, Prepared};
ghost use Rattle.font.specs.Lent.{most_lent, Lent, Reachable};

use crate::{BitmapFont, GlyphKey, Pen, UNMOVED};

// The position of the picture's column 0 and row 0.
pub const ORIGIN: usize = 0x400_0000;

// The rows of a picture that are lent: `count` rows of `width` pixels, the first of which is the
// picture's row `first`.
#[derive(Clone, Copy, PartialEq, Eq, Debug)]
pub struct Rows {
    pub width: usize,
    pub count: usize,
    pub first: usize,
}

// Where a glyph stands: the positions of its left column and of its base line. It keeps no fact of them: the
// definitions make spots of any (`Stroke`).
#[derive(Clone, Copy, PartialEq, Eq, Debug)]
pub struct Spot {
    pub x: usize,
    pub base: usize,
}

// The color byte s with alpha a over the picture's byte d. It never passes 255 (`byte_fits`), so the
// cast loses nothing.
#[tactic(auto, unfolding(crate::specs::Blend::blend_byte))]
fn blend_byte(s: u8, a: u8, d: u8) -> u8
    ensures { result ≡ blend_byte s a d }
{
    ((s as u16 * a as u16 + d as u16 * (255 - a) as u16 + 127) / 255) as u8
}

// Alpha a over the picture's alpha d, mixed as a byte of 255 is: where the four bytes of a pixel take
// one formula, the compiler mixes them at once.
#[tactic(auto, using(crate::proofs::PixelBlend::alpha_byte))]
fn blend_alpha(a: u8, d: u8) -> u8
    ensures { result ≡ blend_alpha a d }
{
    blend_byte(255, a, d)
}

// Blends a color into the pixel whose four bytes begin at `at`. Row, place and color stay arguments, here and
// below: they change with each column, row or stroke.
#[tactic(auto, using(crate::proofs::PixelBlend::pixel_of))]
fn blend_pixel(row: &mut [u8], at: usize, color: [u8; 4])
    requires { at + 4 ≤ length row.old }
    ensures { row.new ≡ blend_pixel color at row.old }
{
    let alpha = color[3];
    row[at] = blend_byte(color[0], alpha, row[at]);
    row[at + 1] = blend_byte(color[1], alpha, row[at + 1]);
    row[at + 2] = blend_byte(color[2], alpha, row[at + 2]);
    row[at + 3] = blend_alpha(alpha, row[at + 3]);
}

// Paints a column, at position x, where it lies on the picture's row.
#[tactic(auto, unfolding(crate::specs::Paint::paint_column))]
fn paint_column(row: &mut [u8], x: usize, color: [u8; 4])
    requires { x < 4 * origin }
    ensures { row.new ≡ paint_column color x row.old }
{
    if ORIGIN <= x && 4 * (x - ORIGIN) + 4 <= row.len() {
        blend_pixel(row, 4 * (x - ORIGIN), color);
    }
}

// Paints column c of a glyph's row, where it is lit; column 0 is at position x.
fn paint_bit(row: &mut [u8], x: usize, bits: u8, c: usize, color: [u8; 4])
    requires { (x < 2 * origin + 256) × (c < 8) }
    ensures { row.new ≡ paint_bit color bits x c row.old }
{
    if (bits >> (7 - c)) % 2 == 1 {
        paint_column(row, x + c, color);
    }
}

// Paints a glyph's row, its column 0 at position x. Many rows are blank, and change nothing.
#[tactic(auto, using(crate::proofs::Columns::columns_blank), unfolding(crate::specs::Paint::paint_columns))]
fn paint_row(row: &mut [u8], x: usize, bits: u8, color: [u8; 4])
    requires { x < 2 * origin + 256 }
    ensures { row.new ≡ paint_row color bits x row.old }
{
    if bits == 0 {
        return;
    }
    for c in 0..8 {
        paint_bit(row, x, bits, c, color);
    }
}

// Paints a glyph's row, moved by its offset, into the picture's row on which it falls.
fn draw_row(row: &mut [u8], x: usize, bits: u8, offset: u8, color: [u8; 4])
    requires { (unmoved ≤ x) × (x < 2 * origin) }
    ensures { row.new ≡ paint_row color bits (x + offset - unmoved) row.old }
{
    paint_row(row, x + offset as usize - UNMOVED as usize, bits, color);
}

// How many of the lent rows lie above row r of a glyph, whose row 0 is at position top.
fn rows_above(rows: Rows, top: usize, r: u32) -> usize
    requires { (rows.first ≤ most_lent) × (top < 2 * origin) }
    ensures { result ≡ min rows.count (top + r - (origin + rows.first)) }
{
    (top + r as usize)
        .saturating_sub(ORIGIN + rows.first)
        .min(rows.count)
}

// Draws the `count` lowest rows of a glyph, from the lowest up; more than sixteen are all of them.
// A part and its rows stay two arguments: a struct that holds the `&mut` is no plainer to lend.
pub fn draw_lowest_rows(
    part: &mut [u8],
    rows: Rows,
    glyph: &[u8; 16],
    offsets: &[u8; 16],
    at: Spot,
    color: [u8; 4],
    count: u32,
)
    requires { Lent (length part.old) rows × Reachable at }
    ensures { part.new
        ≡ part_after glyph.now offsets.now color at.x at.base
        rows.width rows.count rows.first count part.old }
{
    let size = 4 * rows.width;
    let top = at.base - BitmapFont::BEARING_Y as usize;
    let last = rows_above(rows, top, BitmapFont::CELL_H.saturating_sub(count));
    let below = rows_above(rows, top, BitmapFont::CELL_H);
    for i in (last..below).rev() {
        let a = i * size;
        let r = ORIGIN + rows.first + i - top;
        draw_row(&mut part[a..a + size], at.x, glyph[r], offsets[r], color);
    }
}

// Draws a glyph with a pen, into lent rows of a picture. The glyph's rows and the offsets that the pen
// moves them by are lent too, so that strokes share them; the key and the pen say which they are. A
// clear color draws nothing. The pen is an argument of each stroke, as document 01 has it.
pub fn draw_glyph_sheared(
    part: &mut [u8],
    rows: Rows,
    key: GlyphKey,
    glyph: &[u8; 16],
    offsets: &[u8; 16],
    at: Spot,
    pen: Pen,
)
    requires { Lent (length part.old) rows × Reachable at × Prepared key pen glyph.now offsets.now }
    ensures { part.new
        ≡ each_row (pen_row key pen at) (4 * rows.width) rows.count rows.first part.old }
{
    let color = pen.color;
    if color[3] == 0 {
        return;
    }
    draw_lowest_rows(part, rows, glyph, offsets, at, color, BitmapFont::CELL_H);
}
