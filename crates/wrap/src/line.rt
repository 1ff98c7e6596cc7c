// The line being filled: where it stands in the workspace, closing it and adding letters to it.
ghost use Rattle.std.specs.Prelude.{◌≡◌, true, not, ◌&&◌, List, ◌+◌, ◌*◌, ◌-◌, ◌≤◌, ◌<◌, length, nat_lt, ◌==◌};
ghost use Rattle.std.proofs.lemmas.List.Edits.{sets};
ghost use Rattle.tape.specs.Command.{most_letters};
ghost use Rattle.tape.specs.Runs.{Letter};
ghost use Rattle.tape.specs.Tape.{least_room};
ghost use Rattle.wrap.specs.Lines.{add, trim_trailing_space};
ghost use Rattle.wrap.specs.Wrap.{most_columns, two, twos};
ghost use Rattle.wrap.specs.Laid.{two_byte_numbers, Holds};
ghost use Rattle.wrap.specs.Filled.{numbers_of, added, Sane, Ready, Closed, Turns, Tallied};

use crate::laid::{INKED, NUMBERS, TABLE};
use crate::limit::Limit;
use crate::token::Token;

// Writes a number in two bytes, high byte first: one line over the library.
fn put_two(ws: &mut [u8], at: usize, v: usize)
    requires { (at + 2 ≤ length ws.old) × (v < two_byte_numbers) }
    ensures { ws.new ≡ sets ws.old at (two v) }
{
    ws[at..at + 2].copy_from_slice(&(v as u16).to_be_bytes());
}

// Writes the numbers of these letters.
fn put_numbers(ws: &mut [u8], at: usize, token: Token)
    requires { at + 2 * (token.to - token.from) ≤ length ws.old }
    ensures { ws.new ≡ sets ws.old at (twos (numbers_of token)) }
{
    for k in token.from..token.to {
        put_two(ws, at + 2 * (k - token.from), k);
    }
}

// How many lines are closed; among the numbers, where the line being filled starts, where it ends,
// and where it ends without its trailing spaces; its columns, and those without these spaces; and how
// many letters with ink are on it and the lines before.
#[derive(Clone, Copy, Default)]
pub struct Cursor {
    pub lines: usize,
    pub start: usize,
    pub end: usize,
    pub kept: usize,
    pub columns: usize,
    pub kept_columns: usize,
    pub inked: usize,
}

impl Cursor {
    // Closes the line: it goes into the table without its trailing spaces.
    pub fn close(self, ws: &mut [u8]) -> Cursor
        requires { Sane self most_letters × (self.lines < most_letters) × (least_room ≤ length ws.old) }
        ensures { Closed true self ws.old result ws.new }
    {
        let at = TABLE + 4 * self.lines;
        put_two(ws, at, self.kept - self.start);
        put_two(ws, at + 2, self.kept_columns);
        put_two(ws, INKED + 2 * self.lines, self.inked);
        Cursor {
            lines: self.lines + 1,
            start: self.kept,
            end: self.kept,
            kept: self.kept,
            columns: 0,
            kept_columns: 0,
            inked: self.inked,
        }
    }

    // Closes the line where it is full.
    pub fn close_if(self, ws: &mut [u8], full: bool) -> Cursor
        requires { Sane self most_letters × (full ≡ true → self.lines < most_letters) × (least_room ≤ length ws.old) }
        ensures { Closed full self ws.old result ws.new }
    {
        if full { self.close(ws) } else { self }
    }

    // The cursor behind these letters.
    fn behind(self, ws: &[u8], token: Token) -> Cursor
        requires { Sane self token.from × (8 * token.to ≤ length ws.now) }
        ensures { Sane result token.to
            × ((ls : List Letter) → token.to ≤ length ls → Tallied token ls → Holds ls ws.now
            → result ≡ added ls self (numbers_of token) (trim_trailing_space ls (numbers_of token))) }
    {
        let after = Cursor {
            end: self.end + (token.to - token.from),
            columns: self.columns + token.columns,
            inked: self.inked + token.inked,
            ..self
        };
        match token.trim_trailing_space(ws) {
            Some(kept) => Cursor {
                kept: self.end + (kept.to - kept.from),
                kept_columns: self.columns + kept.columns,
                ..after
            },
            None => after,
        }
    }

    // Adds these letters to the line.
    pub fn add(self, ws: &mut [u8], token: Token) -> Cursor
        requires { Ready self ws.old token }
        ensures { Turns token Tallied (λ (ls : List Letter). add) self ws.old result ws.new }
    {
        let after = self.behind(ws, token);
        put_numbers(ws, NUMBERS + 2 * self.end, token);
        after
    }

    // Whether a token is dropped, being a space token before any columns.
    pub fn drops(self, space: bool) -> bool
        ensures { result ≡ (space && not (nat_lt 0 self.columns)) }
    {
        space && self.columns == 0
    }

    // Whether the line has columns, and with so many more would pass the limit.
    pub fn passes(self, columns: usize, limit: Limit) -> bool
        requires { self.columns + columns ≤ 2 * most_columns }
        ensures { result ≡ (nat_lt 0 self.columns && nat_lt limit.columns (self.columns + columns)) }
    {
        0 < self.columns && limit.columns < self.columns + columns
    }
}
