// Lines: the letters of a cue, which lie in a lent workspace, are put on lines by their numbers.
// Carried over from `wrap_runs` of src/compositor.rs of oxideav-subtitle; what lines letters make is
// in specs/. `ws` is the workspace throughout: letters from its start, the numbers of the letters on
// lines from `laid::NUMBERS`, two bytes each, the table of lines from `laid::TABLE`, four bytes each,
// and from `laid::INKED`, two bytes for each line, how many letters with ink are on the lines so far.
// It stays a slice with its room in clauses, since `Wrapped` and `Laid` speak of all that a caller lends; how many
// letters it holds stays a number, since that is what `read_tape` answers.
#![tactic(auto)]

mod fill;
pub mod laid;
mod limit;
mod line;
mod token;

ghost use Rattle.std.specs.Prelude.{◌≡◌, List, ◌+◌, ◌*◌, ◌≤◌, length, ◌==◌};
ghost use Rattle.std.proofs.Math.Seq.{slice};
ghost use Rattle.tape.specs.Answer.{outcome_of};
ghost use Rattle.tape.specs.Command.{most_letters};
ghost use Rattle.tape.specs.Runs.{Letter};
ghost use Rattle.tape.specs.Tape.{least_room};
ghost use Rattle.wrap.specs.Lines.{Line, is_empty_line, without_last};
ghost use Rattle.wrap.specs.Wrap.{line_table};
ghost use Rattle.wrap.specs.Laid.{table_from, letters_on, Holds, Laid, Brought};
ghost use Rattle.wrap.specs.Wrapped.{Wrapped};

pub use limit::Limit;
use tape::{Answer, Style};

// How many lines there are, letters on them, and letters with ink.
#[derive(Clone, Copy)]
pub struct Lines {
    pub lines: usize,
    pub letters: usize,
    pub inked: usize,
}

fn is_empty_line(ws: &[u8], line: usize) -> bool
    requires { table_from + 4 * line + 4 ≤ length ws.now }
    ensures { result ≡ (letters_on ws.now line == 0) }
{
    laid::letters_on(ws, line) == 0
}

// How many of these lines there are without the empty ones at their end.
fn drop_empty_lines(ws: &[u8], lines: usize) -> usize
    requires { table_from + 4 * lines ≤ length ws.now }
    ensures { (result ≤ lines) × ((ls : List Letter) (ds : List Line) → lines ≡ length ds
        → slice table_from (table_from + 4 * lines) ws.now ≡ line_table ls ds
        → result ≡ length (without_last is_empty_line ds)) }
{
    for line in (0..lines).rev() {
        if !is_empty_line(ws, line) {
            return line + 1;
        }
    }
    0
}

// Puts the letters of the workspace on lines of at most `limit` columns.
pub fn wrap_runs(ws: &mut [u8], count: usize, limit: Limit) -> Lines
    requires { (count ≤ most_letters) × (least_room ≤ length ws.old) }
    ensures { (result.lines ≤ count) × (result.letters ≤ count) × (result.inked ≤ count)
        × ((ls : List Letter) → count ≡ length ls → Holds ls ws.old → Laid ls limit.columns result ws.new) }
{
    let end = fill::fill(ws, count, limit);
    Lines {
        lines: drop_empty_lines(ws, end.lines),
        letters: end.start,
        inked: end.inked,
    }
}

// Wraps the letters of the workspace, and moves their lines to its front.
fn bring_lines(ws: &mut [u8], count: usize, limit: Limit) -> usize
    requires { (count ≤ most_letters) × (least_room ≤ length ws.old) }
    ensures { (ls : List Letter) → count ≡ length ls → Holds ls ws.old → Brought ls limit.columns result ws.new }
{
    let made = wrap_runs(ws, count, limit);
    let table = 4 * made.lines;
    ws.copy_within(laid::TABLE..laid::TABLE + table, 0);
    ws.copy_within(laid::NUMBERS..laid::NUMBERS + 2 * made.letters, table);
    made.lines
}

// The call Wrap: the workspace then begins with each line's letters and columns, two bytes each, high
// byte first, and then the numbers of the letters on lines.
pub fn wrap(tape: &[u8], ws: &mut [u8], limit: u32) -> Answer
    ensures { Wrapped tape.now ws.old ws.new limit (outcome_of result) }
{
    let limit = Limit::try_from(limit)?;
    let count = tape::read_tape(tape, ws, Style::default_with([0xff; 4]))?;
    Ok(bring_lines(ws, count, limit))
}
