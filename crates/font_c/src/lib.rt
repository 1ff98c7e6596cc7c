// The font for callers in C and Rust: what `host/` compares with the original, glyph by glyph, stroke
// by stroke and row by row. The captions themselves have an interface of their own.
// What is exported takes numbers and flags, in place of fonts, pens and spots, since C knows none.
#![tactic(auto)]

ghost use Rattle.std.specs.Prelude.{◌≡◌};
ghost use Rattle.font.specs.Font.{table_of, glyph_rows};
ghost use Rattle.font_c.specs.Exported.{near, admitted, Stroked, StrokedRows};

use font::{BitmapFont, GlyphKey, Pen, Rows, Spot};

// The most columns, and the most rows, of a picture of which the painter is lent a part.
const MOST_LENT: usize = 4096;

// The table of the font that the bold mark picks.
// Each arm makes its own table. Tried as one: behind a choice of the font the 4,096 bytes are copied once more.
fn table(bold: bool) -> [u8; 4096]
    ensures { result ≡ table_of bold }
{
    if bold {
        BitmapFont::default_bold().table()
    } else {
        BitmapFont::default_regular().table()
    }
}

// Writes the sixteen rows that are drawn for a code point in a glyph mode.
#[unsafe(no_mangle)]
pub extern "C" fn font_glyph_rows(mode: u32, code: u32, bold: bool, rows: &mut [u8; 16])
    ensures { rows.new ≡ glyph_rows (table_of bold) mode code }
{
    *rows = font::glyph_rows(&table(bold), GlyphKey { mode, code });
}

#[tactic(auto, unfolding(crate::specs::Exported::near))]
fn is_near(x: usize) -> bool
    ensures { result ≡ near x }
{
    (font::ORIGIN / 2..2 * font::ORIGIN).contains(&x)
}

// Whether n bytes hold these rows, the slant is one of the nine, and the position is near.
#[tactic(auto, unfolding(crate::specs::Exported::admitted))]
fn is_admitted(n: usize, rows: Rows, slant: u32, at: Spot) -> bool
    ensures { result ≡ admitted n rows.width rows.count rows.first slant at.x at.base }
{
    slant <= font::MOST_SLANT
        && rows.width <= MOST_LENT
        && rows.count <= MOST_LENT
        && rows.first <= MOST_LENT
        && is_near(at.x)
        && is_near(at.base)
        && rows.count * (4 * rows.width) <= n
}

// Blends the `count` lowest rows of a glyph, more than sixteen being all of them, into a part of a
// picture: `rows` rows of `width` pixels from the picture's row `first` on. The slant is in eighths of
// a cell's width, 0 upright. x and y, the left column and the base line, are counted from an origin
// 2^26 left of and above the picture. Answers false, and leaves the part, where these are out of range.
#[tactic(auto, using(crate::proofs::Admitted::asked), unfolding(crate::specs::Exported::stroked_rows))]
#[unsafe(no_mangle)]
pub extern "C" fn font_stroke_rows(
    part: &mut [u8],
    width: u32,
    rows: u32,
    first: u32,
    mode: u32,
    code: u32,
    bold: bool,
    slant: u32,
    color: u32,
    x: u32,
    y: u32,
    count: u32,
) -> bool
    ensures { StrokedRows count width rows first mode code bold slant color x y part.old part.new result }
{
    let lent = Rows {
        width: width as usize,
        count: rows as usize,
        first: first as usize,
    };
    let at = Spot {
        x: x as usize,
        base: y as usize,
    };
    if !is_admitted(part.len(), lent, slant, at) {
        return false;
    }
    let pen = Pen::new(font::color_bytes(color), bold, slant);
    let offsets = pen.row_offsets();
    let glyph = font::glyph_rows(&table(pen.bold), GlyphKey { mode, code });
    let bytes = pen.color;
    font::draw_lowest_rows(part, lent, &glyph, &offsets, at, bytes, count);
    true
}

// The same of the whole glyph.
#[unsafe(no_mangle)]
pub extern "C" fn font_stroke(
    part: &mut [u8],
    width: u32,
    rows: u32,
    first: u32,
    mode: u32,
    code: u32,
    bold: bool,
    slant: u32,
    color: u32,
    x: u32,
    y: u32,
) -> bool
    ensures { Stroked width rows first mode code bold slant color x y part.old part.new result }
{
    let all = BitmapFont::CELL_H;
    font_stroke_rows(
        part, width, rows, first, mode, code, bold, slant, color, x, y, all,
    )
}
