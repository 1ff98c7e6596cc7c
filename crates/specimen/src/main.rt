// Writes both fonts, a line for each code point and one for all from 256: the code point, the
// sixteen rows of its glyph in the regular font and those in the bold one, in hexadecimal. The glyph
// mode is 0; mode 1 draws no glyph that is not among these.
//
// The file `stdout` is what the original draws (`compare specimen` in host/ writes it), so each run
// of the gate holds both tables to the original.
#![tactic(auto)]

use font::{BitmapFont, GlyphKey};
use std::io;

// Writes a space and a glyph's rows.
fn print_rows(rt: &impl Print, rows: [u8; 16]) -> io::Result<()> {
    print!(rt; " ")?;
    for row in rows {
        print!(rt; "{row:02x}")?;
    }
    Ok(())
}

fn print_glyph(
    rt: &impl Print,
    regular: &[u8; 4096],
    bold: &[u8; 4096],
    code: u32,
) -> io::Result<()> {
    print!(rt; "{code:04x}")?;
    let key = GlyphKey { mode: 0, code };
    print_rows(rt, font::glyph_rows(regular, key))?;
    print_rows(rt, font::glyph_rows(bold, key))?;
    println!(rt; "")
}

fn main(rt: HostRuntime) -> io::Result<()> {
    let regular = BitmapFont::default_regular().table();
    let bold = BitmapFont::default_bold().table();
    for code in 0..=256 {
        print_glyph(&rt, &regular, &bold, code)?;
    }
    Ok(())
}
