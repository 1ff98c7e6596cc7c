// Letters and tokens: stretches of letters in the workspace.
ghost use Rattle.std.specs.Prelude.{◌≡◌, List, ◌+◌, ◌*◌, ◌-◌, ◌≤◌, ◌<◌, length};
ghost use Rattle.tape.specs.Command.{most_letters};
ghost use Rattle.tape.specs.Runs.{Letter};
ghost use Rattle.tape.specs.Stored.{letter_at, code_at};
ghost use Rattle.wrap.specs.Columns.{is_space, is_blank, is_control, columns_of};
ghost use Rattle.wrap.specs.Laid.{Holds};

use tape::letter;

fn is_space(c: u32) -> bool
    ensures { result ≡ is_space c }
{
    c == 0x20
}

fn is_blank(c: u32) -> bool
    ensures { result ≡ is_blank c }
{
    matches!(c, 0x20 | 0x09)
}

fn is_control(c: u32) -> bool
    ensures { result ≡ is_control c }
{
    matches!(c, 0x00..=0x1f | 0x7f..=0x9f)
}

fn columns_of(c: u32) -> usize
    ensures { (result ≡ columns_of c) × (result ≤ 1) }
{
    if is_control(c) && c != 0x09 { 0 } else { 1 }
}

// Whether letter i is a space or a tab.
pub fn is_blank_letter(ws: &[u8], i: usize) -> bool
    requires { 8 * i + 8 ≤ length ws.now }
    ensures { result ≡ is_blank (code_at ws.now i) }
{
    is_blank(letter::code(ws, i))
}

// A token, or a part of one: the letters from a number up to another, their columns, and how many of
// them have ink.
#[derive(Clone, Copy)]
pub struct Token {
    pub from: usize,
    pub to: usize,
    pub columns: usize,
    pub inked: usize,
    ghost some: { from < to },
    ghost few: { to ≤ most_letters },
    ghost narrow: { columns ≤ to - from },
    ghost few_inked: { inked ≤ to - from },
}

impl Token {
    ghost use Rattle.wrap.specs.Filled.{goes_on, end_of, Made, Found, Cut, Trimmed};

    // The letters as far as `to`. One with ink has a column, so that others alone are asked for theirs.
    pub fn of(ws: &[u8], from: usize, to: usize) -> Token
        requires { (from < to) × (to ≤ most_letters) × (8 * to ≤ length ws.now) }
        ensures { Made ws.now from to result }
    {
        let mut columns = 0;
        let mut inked = 0;
        for k in from..to {
            let c = letter::code(ws, k);
            if font::has_ink(c) {
                columns += 1;
                inked += 1;
            } else {
                columns += columns_of(c);
            }
        }
        Token {
            from,
            to,
            columns,
            inked,
        }
    }

    // Whether letter i goes on a token of letters that are blank, or are not.
    fn goes_on(ws: &[u8], i: usize, blank: bool) -> bool
        requires { 8 * i + 8 ≤ length ws.now }
        ensures { result ≡ goes_on blank (letter_at ws.now i).start (code_at ws.now i) }
    {
        let c = letter::code(ws, i);
        c != 0x0a && blank == is_blank(c) && !letter::starts_run(ws, i)
    }

    // Where the token ends that begins with letter i.
    fn end_of(ws: &[u8], i: usize, count: usize) -> usize
        requires { (i < count) × (8 * count ≤ length ws.now) }
        ensures { (i < result) × (result ≤ count)
            × ((ls : List Letter) → count ≡ length ls → Holds ls ws.now → result ≡ end_of ls i) }
    {
        let blank = is_blank_letter(ws, i);
        for j in i + 1..count {
            if !Token::goes_on(ws, j, blank) {
                return j;
            }
        }
        count
    }

    // The token that begins with letter i.
    pub fn tokenise(ws: &[u8], i: usize, count: usize) -> Token
        requires { (i < count) × (count ≤ most_letters) × (8 * count ≤ length ws.now) }
        ensures { Found ws.now i count result }
    {
        Token::of(ws, i, Token::end_of(ws, i, count))
    }

    // These letters as far as another end. Where that is their own, none is counted anew.
    fn up_to(self, ws: &[u8], to: usize) -> Token
        requires { (self.from < to) × (to ≤ self.to) × (8 * self.to ≤ length ws.now) }
        ensures { Cut self ws.now result × (result.to ≡ to) }
    {
        if to == self.to {
            return self;
        }
        Token::of(ws, self.from, to)
    }

    // What is left of these letters without their trailing spaces.
    pub fn trim_trailing_space(self, ws: &[u8]) -> Option<Token>
        requires { 8 * self.to ≤ length ws.now }
        ensures { Trimmed self ws.now result }
    {
        for k in (self.from..self.to).rev() {
            if !is_space(letter::code(ws, k)) {
                return Some(self.up_to(ws, k + 1));
            }
        }
        None
    }
}
