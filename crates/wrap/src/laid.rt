// Lines where they lie in the workspace: the numbers of the letters on them, the table, and the totals
// of letters with ink. That a line lies in what is lent is asked of each caller, by its number.
ghost use Rattle.std.specs.Prelude.{◌≡◌, ◌+◌, ◌*◌, ◌≤◌, ◌<◌, length};
ghost use Rattle.wrap.specs.Laid.{numbers_from, table_from, inked_from, two_byte_numbers, two_at, number_at, letters_on, columns_on, inked_through};

// Where the numbers of the letters on lines begin, two bytes each.
pub const NUMBERS: usize = 32768;

// Where the table of lines begins, four bytes each.
pub const TABLE: usize = 40960;

// Where the totals of letters with ink begin, two bytes for each line.
pub const INKED: usize = 57344;

// A number in two bytes, high byte first: one line over the library, as `report` has it for programs. A
// `usize`, as all counts of letters are.
fn two_at(ws: &[u8], at: usize) -> usize
    requires { at + 2 ≤ length ws.now }
    ensures { (result ≡ two_at ws.now at) × (result < two_byte_numbers) }
{
    usize::from(u16::from_be_bytes([ws[at], ws[at + 1]]))
}

// The number of the k-th letter on lines. Here and below each place has a function of its own, which
// its promise names.
pub fn number(ws: &[u8], k: usize) -> usize
    requires { numbers_from + 2 * k + 2 ≤ length ws.now }
    ensures { result ≡ number_at ws.now k }
{
    two_at(ws, NUMBERS + 2 * k)
}

// How many letters a line has.
pub fn letters_on(ws: &[u8], line: usize) -> usize
    requires { table_from + 4 * line + 4 ≤ length ws.now }
    ensures { result ≡ letters_on ws.now line }
{
    two_at(ws, TABLE + 4 * line)
}

// How many columns a line has.
pub fn columns_on(ws: &[u8], line: usize) -> usize
    requires { table_from + 4 * line + 4 ≤ length ws.now }
    ensures { (result ≡ columns_on ws.now line) × (result < two_byte_numbers) }
{
    two_at(ws, TABLE + 4 * line + 2)
}

// How many letters with ink are on the lines up to this one.
pub fn inked_through(ws: &[u8], line: usize) -> usize
    requires { inked_from + 2 * line + 2 ≤ length ws.now }
    ensures { result ≡ inked_through ws.now line }
{
    two_at(ws, INKED + 2 * line)
}
