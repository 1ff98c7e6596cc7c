// The cue tape and its reader: letters with their styles go into a lent workspace.
// Carried over from `flatten_segments` and `walk` of src/compositor.rs of oxideav-subtitle; what a
// tape means is in specs/. `ws` is the workspace throughout.
#![tactic(auto)]

mod command;
pub mod letter;
mod reader;
mod refusal;
pub mod stack;

ghost use Rattle.std.specs.Prelude.{◌≡◌, [], ◌∷◌, ◌+◌, ◌*◌, ◌≤◌, ◌<◌, length};
ghost use Rattle.tape.specs.Style.{default_with};
ghost use Rattle.tape.specs.Command.{added, ends};
ghost use Rattle.tape.specs.Runs.{run};
ghost use Rattle.tape.specs.Tape.{says};
ghost use Rattle.tape.specs.Marks.{starts};
ghost use Rattle.tape.specs.TapeRead.{TapeRead};
ghost use Rattle.tape.specs.Reading.{wrote, Wrote};
ghost use Rattle.tape.specs.Answer.{outcome_of};

use reader::Inside;
pub use refusal::{Answer, Cause, Refusal, packed, packed_refusal};

// The most bytes of a tape, and the least of a workspace.
pub const MOST_BYTES: usize = 16384;

pub const LEAST_ROOM: usize = 65536;

// What a letter is drawn in.
#[derive(Clone, Copy, Debug, PartialEq, Eq)]
pub struct Style {
    pub red: u8,
    pub green: u8,
    pub blue: u8,
    pub alpha: u8,
    pub bold: bool,
    pub italic: bool,
}

impl Style {
    // The style of a tape's outer list: by this name, and no `From`, as document 01 has it.
    pub fn default_with(color: [u8; 4]) -> Style
        ensures { result ≡ default_with color }
    {
        let [red, green, blue, alpha] = color;
        Style {
            red,
            green,
            blue,
            alpha,
            bold: false,
            italic: false,
        }
    }
}

// Where the reader is: the place in the tape, how many letters it has stored, and the style of the last
// run, where that run has a letter.
#[derive(Clone, Copy)]
struct State {
    at: usize,
    count: usize,
    last: Option<Style>,
}

impl State {
    // Goes on to another place.
    fn onto(self, next: usize) -> State
        ensures { result ≡ wrote self [] next }
    {
        State { at: next, ..self }
    }

    // Whether a letter of this style starts a run.
    fn begins(self, s: Style) -> bool
        ensures { result ≡ starts self.last s }
    {
        match self.last {
            Some(last) => last != s,
            None => true,
        }
    }

    // Passes an empty text.
    fn empty_text(self, s: Style, next: usize) -> State
        ensures { result ≡ wrote self (run s [] ∷ []) next }
    {
        let last = if self.begins(s) { None } else { Some(s) };
        State {
            at: next,
            last,
            ..self
        }
    }

    // Stores a letter.
    fn put(self, ws: &mut [u8], s: Style, code: u32, next: usize) -> State
        requires { (8 * self.count + 8 ≤ length ws.old) × (code < 16777216) }
        ensures { Wrote ws.old ws.new self result (run s (code ∷ []) ∷ []) next }
    {
        let count = self.count;
        letter::put_letter(ws, count, code, s, self.begins(s));
        State {
            at: next,
            count: count + 1,
            last: Some(s),
        }
    }

    // The same of a code point of one byte.
    #[inline(always)]
    fn put_short(self, ws: &mut [u8], s: Style, code: u8, next: usize) -> State
        requires { 8 * self.count + 8 ≤ length ws.old }
        ensures { Wrote ws.old ws.new self result (run s (code ∷ []) ∷ []) next }
    {
        let count = self.count;
        letter::put_short_letter(ws, count, code, s, self.begins(s));
        State {
            at: next,
            count: count + 1,
            last: Some(s),
        }
    }

    // Passes the 00 of a list or a name: a name's stores ": ".
    #[tactic(auto, unfolding(crate::specs::Command::added))]
    fn finish(self, ws: &mut [u8], s: Style, naming: bool, next: usize) -> State
        requires { 8 * (self.count + added naming 0) ≤ length ws.old }
        ensures { Wrote ws.old ws.new self result (says ends s naming) next }
    {
        if naming {
            let colon = self.put(ws, s, 0x3a, next);
            return colon.put(ws, s, 0x20, next);
        }
        self.onto(next)
    }
}

// Reads a whole tape; `style` is that of its outer list. The workspace then begins with the letters.
pub fn read_tape(tape: &[u8], ws: &mut [u8], style: Style) -> Answer
    ensures { TapeRead tape.now ws.old ws.new style (outcome_of result) }
{
    if MOST_BYTES < tape.len() {
        return Err(Cause::TapeTooLong.at(0));
    }
    if ws.len() < LEAST_ROOM {
        return Err(Cause::WorkspaceTooShort.at(0));
    }
    let start = State {
        at: 0,
        count: 0,
        last: None,
    };
    let outer = Inside {
        style,
        naming: false,
        depth: 0,
    };
    let end = reader::read_list(tape, ws, start, outer)?;
    Ok(end.count)
}
