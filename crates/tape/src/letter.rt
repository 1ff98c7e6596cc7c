// Letters in the workspace, eight bytes each: three of the code point, high byte first; red, green,
// blue, alpha; and flags. That a letter lies in what is lent is asked of each caller, by its number.
ghost use Rattle.std.specs.Prelude.{◌≡◌, ◌+◌, ◌*◌, ◌/◌, ◌≤◌, ◌<◌, length};
ghost use Rattle.std.proofs.lemmas.List.Edits.{sets};
ghost use Rattle.tape.specs.TapeRead.{flags_of, stored_letter};
ghost use Rattle.tape.specs.Stored.{letter_byte, code_at, odd, style_at};

use crate::Style;

// 1 for bold, 2 for italic, 4 for the start of a run: three marks in a byte, which no conversion of the library makes.
fn flags(s: Style, start: bool) -> u8
    ensures { result ≡ flags_of s start }
{
    u8::from(s.bold) + 2 * u8::from(s.italic) + 4 * u8::from(start)
}

// Stores letter number `count`, byte by byte: an array that is copied may be made on the stack first, and reading then
// takes up to twice as long.
pub fn put_letter(ws: &mut [u8], count: usize, code: u32, s: Style, start: bool)
    requires { (8 * count + 8 ≤ length ws.old) × (code < 16777216) }
    ensures { ws.new ≡ sets ws.old (8 * count) (stored_letter code s start) }
{
    let [_, high, middle, low] = code.to_be_bytes();
    let i = 8 * count;
    ws[i] = high;
    ws[i + 1] = middle;
    ws[i + 2] = low;
    ws[i + 3] = s.red;
    ws[i + 4] = s.green;
    ws[i + 5] = s.blue;
    ws[i + 6] = s.alpha;
    ws[i + 7] = flags(s, start);
}

// Puts eight bytes into as many, as one value.
#[inline(always)]
fn put_bytes(slot: &mut [u8], letter: [u8; 8])
    requires { length slot.old ≡ 8 }
    ensures { slot.new ≡ letter }
{
    if let Some(bytes) = slot.as_mut_array() {
        *bytes = letter;
    }
}

// The same of a code point of one byte, as one value: where such letters follow one another all but the code point stays,
// and each is one sum and one store.
#[inline(always)]
pub fn put_short_letter(ws: &mut [u8], count: usize, code: u8, s: Style, start: bool)
    requires { 8 * count + 8 ≤ length ws.old }
    ensures { ws.new ≡ sets ws.old (8 * count) (stored_letter code s start) }
{
    let flags = flags(s, start);
    let letter = [0, 0, code, s.red, s.green, s.blue, s.alpha, flags];
    put_bytes(&mut ws[8 * count..8 * count + 8], letter);
}

// The code point of a stored letter.
pub fn code(ws: &[u8], number: usize) -> u32
    requires { 8 * number + 8 ≤ length ws.now }
    ensures { result ≡ code_at ws.now number }
{
    let i = 8 * number;
    u32::from_be_bytes([0, ws[i], ws[i + 1], ws[i + 2]])
}

// The style of a stored letter.
pub fn style(ws: &[u8], number: usize) -> Style
    requires { 8 * number + 8 ≤ length ws.now }
    ensures { result ≡ style_at ws.now number }
{
    let i = 8 * number;
    let flags = ws[i + 7];
    Style {
        red: ws[i + 3],
        green: ws[i + 4],
        blue: ws[i + 5],
        alpha: ws[i + 6],
        bold: flags % 2 == 1,
        italic: flags / 2 % 2 == 1,
    }
}

// Whether a run starts with a stored letter.
pub fn starts_run(ws: &[u8], number: usize) -> bool
    requires { 8 * number + 8 ≤ length ws.now }
    ensures { result ≡ odd (letter_byte ws.now number 7 / 4) }
{
    ws[8 * number + 7] / 4 % 2 == 1
}
