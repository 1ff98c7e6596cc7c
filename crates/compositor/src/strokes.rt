// The painter: the strokes of letters, in their one order, on lent rows of a picture.
ghost use Rattle.std.specs.Prelude.{◌≡◌, cond, [], ◌∷◌, ◌+◌, ◌*◌, ◌≤◌, ◌<◌, length};
ghost use Rattle.font.specs.Font.{table_of, glyph_rows};
ghost use Rattle.font.specs.Slant.{row_offsets};
ghost use Rattle.font.specs.Paint.{origin};
ghost use Rattle.font.specs.Shear.{pen_of, Prepared};
ghost use Rattle.font.specs.Lent.{most_lent, Lent, Reachable};
ghost use Rattle.tape.specs.Command.{most_letters};
ghost use Rattle.tape.specs.Stored.{letter_at};
ghost use Rattle.wrap.specs.Shown.{inked_letters};
ghost use Rattle.wrap.specs.Laid.{columns_on};
ghost use Rattle.compositor.specs.Settings.{most_pixels, most_outline_cap};
ghost use Rattle.compositor.specs.Layout.{line_width, line_start};
ghost use Rattle.compositor.specs.Outline.{at_distance, displacement_row, displacements};
ghost use Rattle.compositor.specs.Order.{color_of, letter_strokes, line_strokes};
ghost use Rattle.compositor.specs.Read.{letters_at, letters_from, strokes_in};
ghost use Rattle.compositor.specs.Painting.{Near, Fonts, stroke_of, strokes_of, cut, misses, after, off_rows, painted, Painted};
ghost use Rattle.compositor.specs.Ready.{Lined};

use crate::Laid;
use crate::layout::{self, Layout};
use font::{BitmapFont, GlyphKey, ORIGIN, Pen, Rows, Spot};
use tape::{Style, letter};
use wrap::laid;

// Letters on lines: so many, from the `first` on, of which so many have ink.
#[derive(Clone, Copy)]
struct Span {
    first: usize,
    letters: usize,
    inked: usize,
}

// Which strokes are drawn: those from number `from` up to number `to`, counted from the first of
// those at hand. Each function hands back what is left of its window for the strokes after its own.
#[derive(Clone, Copy)]
pub struct Window {
    pub from: usize,
    pub to: usize,
}

impl Window {
    // Whether it has none of the next n strokes.
    fn misses(self, n: usize) -> bool
        ensures { result ≡ misses self n }
    {
        n <= self.from || self.to == 0
    }

    // The window counted from the stroke after the next n.
    fn past(self, n: usize) -> Window
        ensures { result ≡ after self n }
    {
        Window {
            from: self.from.saturating_sub(n),
            to: self.to.saturating_sub(n),
        }
    }
}

// Whether the larger distance of a displacement is exactly o.
fn is_at_distance(o: usize, dx: usize, dy: usize) -> bool
    ensures { result ≡ at_distance o dx dy }
{
    o.abs_diff(dx).max(o.abs_diff(dy)) == o
}

// Whether lines with base lines from position `high` down to position `low`, outlined by o, miss the lent
// rows.
#[tactic(auto, unfolding(crate::specs::Painting::off_rows))]
fn is_off(rows: Rows, high: usize, low: usize, o: usize) -> bool
    requires { (rows.count ≤ most_lent) × (rows.first ≤ most_lent) × (low < 2 * origin) × (o ≤ most_outline_cap) }
    ensures { result ≡ off_rows rows high low o }
{
    let top = ORIGIN + rows.first;
    let descent = BitmapFont::CELL_H as usize - BitmapFont::BEARING_Y as usize;
    low + o + descent <= top || top + rows.count + o + BitmapFont::BEARING_Y as usize <= high
}

// A glyph that is ready for the strokes of a pen: its rows, and the offsets by which the pen moves them.
// `key` is what it was looked up by. The lent rows stay parameters: a struct that held the `&mut` would
// need a clause on its ghost name in each function.
#[derive(Drop)]
struct Stamp {
    key: GlyphKey,
    glyph: [u8; 16],
    offsets: [u8; 16],
    pen: Pen,
    ghost prepared: { Prepared key pen glyph offsets },
}

impl Stamp {
    // The same glyph, ready for its outline.
    fn in_color(&self, color: [u8; 4]) -> Stamp
        ensures { (result.key ≡ self.now.key)
            × (result.pen ≡ record { color = color; bold = self.now.pen.bold; shear = self.now.pen.shear }) }
    {
        Stamp {
            key: self.key,
            glyph: self.glyph,
            offsets: self.offsets,
            pen: Pen { color, ..self.pen },
        }
    }

    // Draws one stroke, if the window has it.
    fn draw_stroke(&self, part: &mut [u8], rows: Rows, at: Spot, window: Window) -> Window
        requires { Lent (length part.old) rows × Reachable at }
        ensures { Painted rows (stroke_of self.now.key self.now.pen at ∷ []) window part.old part.new result }
    {
        if !window.misses(1) {
            font::draw_glyph_sheared(
                part,
                rows,
                self.key,
                &self.glyph,
                &self.offsets,
                at,
                self.pen,
            );
        }
        window.past(1)
    }
}

// A glyph's outline of o pixels, around a spot.
#[derive(Clone, Copy)]
struct Outline<'a> {
    stamp: &'a Stamp,
    at: Spot,
    o: usize,
    ghost near: { Near at },
    ghost thin: { o ≤ most_outline_cap },
}

impl<'a> Outline<'a> {
    // Draws the stroke at a displacement, which is o larger than it is, if the outline has it.
    fn draw_displaced(
        &self,
        part: &mut [u8],
        rows: Rows,
        dx: usize,
        dy: usize,
        window: Window,
    ) -> Window
        requires { Lent (length part.old) rows × (dx ≤ 2 * self.now.o) × (dy ≤ 2 * self.now.o) }
        ensures { Painted rows
            (strokes_of self.now.stamp.now.key self.now.stamp.now.pen self.now.o self.now.at
            (displacement_row self.now.o dy dx 1))
            window part.old part.new result }
    {
        if !is_at_distance(self.o, dx, dy) {
            return window;
        }
        let x = self.at.x + dx - self.o;
        let base = self.at.base + dy - self.o;
        self.stamp.draw_stroke(part, rows, Spot { x, base }, window)
    }

    // Draws the strokes of its row dy.
    fn draw_outline_row(&self, part: &mut [u8], rows: Rows, dy: usize, window: Window) -> Window
        requires { Lent (length part.old) rows × (dy ≤ 2 * self.now.o) }
        ensures { Painted rows
            (strokes_of self.now.stamp.now.key self.now.stamp.now.pen self.now.o self.now.at
            (displacement_row self.now.o dy 0 (2 * self.now.o + 1)))
            window part.old part.new result }
    {
        let mut left = window;
        for dx in 0..2 * self.o + 1 {
            left = self.draw_displaced(part, rows, dx, dy, left);
        }
        left
    }

    // Draws all of it.
    fn draw_outline(&self, part: &mut [u8], rows: Rows, window: Window) -> Window
        requires { Lent (length part.old) rows }
        ensures { Painted rows
            (strokes_of self.now.stamp.now.key self.now.stamp.now.pen self.now.o self.now.at (displacements self.now.o))
            window part.old part.new result }
    {
        if self.o == 0 {
            return window;
        }
        let mut left = window;
        for dy in 0..2 * self.o + 1 {
            left = self.draw_outline_row(part, rows, dy, left);
        }
        left
    }
}

// What a caption's lines are drawn with: the two tables, the offsets of italic letters, the workspace
// with so many lines in it, and where these stand.
#[derive(Drop)]
struct Painter<'a> {
    regular: &'a [u8; 4096],
    bold: &'a [u8; 4096],
    slanted: [u8; 16],
    ws: &'a [u8],
    lines: usize,
    layout: Layout,
    ghost fonts: { Fonts layout.settings.slant regular.now bold.now slanted },
    ghost lined: { Lined ws.now lines },
}

impl<'a> Painter<'a> {
    // A letter's glyph out of the font of its bold mark.
    fn glyph_of(&self, is_bold: bool, key: GlyphKey) -> [u8; 16]
        ensures { result ≡ glyph_rows (table_of is_bold) key.mode key.code }
    {
        if is_bold {
            font::glyph_rows(self.bold, key)
        } else {
            font::glyph_rows(self.regular, key)
        }
    }

    // A letter's offsets. The rows of an upright letter stay.
    #[tactic(auto, unfolding(font::specs::Font::tabulate))]
    fn offsets_of(&self, italic: bool) -> [u8; 16]
        ensures { result ≡ row_offsets (cond italic self.now.layout.settings.slant 0) }
    {
        if italic {
            self.slanted
        } else {
            [font::UNMOVED; 16]
        }
    }

    // A letter's glyph, ready for the letter itself.
    fn stamp(&self, key: GlyphKey, style: Style) -> Stamp
        ensures { (result.key ≡ key)
            × (result.pen ≡ pen_of (color_of style) style.bold (cond style.italic self.now.layout.settings.slant 0)) }
    {
        // No `From`: the four bytes are asked for here alone.
        let color = [style.red, style.green, style.blue, style.alpha];
        let slant = self.layout.slant_of(style.italic);
        Stamp {
            key,
            glyph: self.glyph_of(style.bold, key),
            offsets: self.offsets_of(style.italic),
            pen: Pen::new(color, style.bold, slant),
        }
    }

    // Draws a letter of the workspace: its outline, and then itself. One without ink has no strokes.
    fn draw_letter(
        &self,
        part: &mut [u8],
        rows: Rows,
        number: usize,
        at: Spot,
        window: Window,
    ) -> Window
        requires { Lent (length part.old) rows × (number < most_letters) × Near at }
        ensures { Painted rows (letter_strokes self.now.layout.settings (letter_at self.now.ws.now number) at.x at.base)
            window part.old part.new result }
    {
        let code = letter::code(self.ws, number);
        if !font::has_ink(code) {
            return window;
        }
        let strokes = self.layout.letter_strokes();
        if window.misses(strokes) {
            return window.past(strokes);
        }
        let mode = self.layout.settings.glyph_mode;
        let style = letter::style(self.ws, number);
        let own = self.stamp(GlyphKey { mode, code }, style);
        let around = own.in_color(self.layout.settings.outline_color);
        let outline = Outline {
            stamp: &around,
            at,
            o: self.layout.outline(),
        };
        let left = outline.draw_outline(part, rows, window);
        own.draw_stroke(part, rows, at, left)
    }

    // Draws letters on lines, the first of them at the spot `start`.
    fn draw_line(
        &self,
        part: &mut [u8],
        rows: Rows,
        span: Span,
        start: Spot,
        window: Window,
    ) -> Window
        requires { Lent (length part.old) rows
            × (span.first + span.letters ≤ letters_from self.now.ws.now 0 self.now.lines)
            × Near start × (start.x ≤ origin + most_pixels) }
        ensures { Painted rows
            (line_strokes self.now.layout.settings start.x start.base (letters_at self.now.ws.now span.first span.letters))
            window part.old part.new result }
    {
        let mut left = window;
        for i in 0..span.letters {
            let number = laid::number(self.ws, span.first + i);
            let at = Spot {
                x: start.x + i * BitmapFont::CELL_W as usize,
                base: start.base,
            };
            left = self.draw_letter(part, rows, number, at, left);
        }
        left
    }

    // Draws a line of the workspace's table, the letters of a span, its base line at position y. Where
    // it misses the lent rows, or the window has none of its strokes, no letter is looked at: it is
    // passed by with the strokes of its letters with ink.
    fn place_line(
        &self,
        part: &mut [u8],
        rows: Rows,
        line: usize,
        span: Span,
        y: usize,
        window: Window,
    ) -> Window
        requires { Lent (length part.old) rows
            × (span.first + span.letters ≤ letters_from self.now.ws.now 0 self.now.lines)
            × (span.inked ≡ inked_letters (letters_at self.now.ws.now span.first span.letters))
            × (line < self.now.lines) × (32 ≤ y) × (y + 16 < 2 * origin) }
        ensures { Painted rows
            (line_strokes self.now.layout.settings
            (line_start self.now.layout.settings (line_width (columns_on self.now.ws.now line))) y
            (letters_at self.now.ws.now span.first span.letters))
            window part.old part.new result }
    {
        let strokes = span.inked * self.layout.letter_strokes();
        if is_off(rows, y, y, self.layout.outline()) || window.misses(strokes) {
            return window.past(strokes);
        }
        let x = self.layout.line_start(layout::measure_line(self.ws, line));
        self.draw_line(part, rows, span, Spot { x, base: y }, window)
    }

    // Draws all lines, from the top down.
    fn draw_each_line(&self, part: &mut [u8], rows: Rows, window: Window)
        requires { Lent (length part.old) rows }
        ensures { part.new
            ≡ painted rows (cut window (strokes_in self.now.layout.settings self.now.ws.now self.now.lines)) part.old }
    {
        let mut left = window;
        let mut first = 0;
        let mut before = 0;
        for i in 0..self.lines {
            let letters = laid::letters_on(self.ws, i);
            let through = laid::inked_through(self.ws, i);
            let span = Span {
                first,
                letters,
                inked: through - before,
            };
            let y = self.layout.baseline(self.lines - 1 - i);
            left = self.place_line(part, rows, i, span, y, left);
            first += letters;
            before = through;
        }
    }
}

// Draws the lines of the workspace. The tables are laid out here, once, and lent; not where no line
// can touch the lent rows.
pub fn draw_lines(part: &mut [u8], rows: Rows, ws: &[u8], laid: Laid, window: Window)
    requires { Lent (length part.old) rows × Lined ws.now laid.lines }
    ensures { part.new ≡ painted rows (cut window (strokes_in laid.layout.settings ws.now laid.lines)) part.old }
{
    let Laid { layout, lines, .. } = laid;
    if lines == 0 {
        return;
    }
    let high = layout.baseline(lines - 1);
    let low = layout.baseline(0);
    if is_off(rows, high, low, layout.outline()) {
        return;
    }
    let font = BitmapFont::default_regular();
    let regular = font.table();
    let heavy = BitmapFont::default_bold();
    let bold = heavy.table();
    let italic = Pen::new([0; 4], false, layout.settings.slant);
    let painter = Painter {
        regular: &regular,
        bold: &bold,
        slanted: italic.row_offsets(),
        ws,
        lines,
        layout,
    };
    painter.draw_each_line(part, rows, window);
}
