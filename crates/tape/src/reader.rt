// The reader's parts: a list is read by reading its leaves and its segments with lists, and such a segment by reading its
// list. Tape, workspace and state stay arguments: one is read, one written, and one given back.
ghost use Rattle.std.specs.Prelude.{◌≡◌, true, false, ◌+◌, ◌≤◌, ◌<◌};
ghost use Rattle.tape.specs.Command.{deepest, is_opener};
ghost use Rattle.tape.specs.Reading.{byte_of, Ready, Sound, Leaf, LeafRead, LettersRead, LeavesRead, SegmentRead, ListRead};

use crate::{Cause, Refusal, State, Style, command};

// What a command stands inside: a list or a voice's name, of this style, with so many lists open.
#[derive(Clone, Copy)]
pub struct Inside {
    pub style: Style,
    pub naming: bool,
    pub depth: usize,
    ghost shallow: { depth ≤ deepest },
}

impl Inside {
    // The name of a voice in it.
    fn name_in(self) -> Inside
        ensures { (result.style ≡ self.style) × (result.naming ≡ true) × (result.depth ≡ self.depth) }
    {
        Inside {
            style: self.style,
            naming: true,
            depth: self.depth,
        }
    }

    // A list in it.
    fn list_in(self, style: Style) -> Inside
        requires { self.depth < deepest }
        ensures { (result.style ≡ style) × (result.naming ≡ false) × (result.depth ≡ self.depth + 1) }
    {
        Inside {
            style,
            naming: false,
            depth: self.depth + 1,
        }
    }
}

// A text, a break or a time mark.
#[inline(always)]
fn read_leaf(tape: &[u8], ws: &mut [u8], st: State, style: Style) -> State
    requires { Leaf tape.now ws.old st }
    ensures { LeafRead tape.now ws.old ws.new st style result }
{
    let at = st.at;
    let c = tape[at];
    let next = at + 1 + command::operand_width(c);
    match c {
        0x01 => st.empty_text(style, next),
        0x05 => st.put(ws, style, 0x0a, next),
        0x0b => st.onto(next),
        _ => st.put(ws, style, command::code_point(tape, at), next),
    }
}

// Letters of one byte, as many as follow. Most commands are such letters: they have no fault, and
// behind the first of them no run starts, which this loop lets the compiler see.
#[inline(always)]
fn read_letters(tape: &[u8], ws: &mut [u8], st: State, style: Style) -> State
    requires { Ready tape.now ws.old st }
    ensures { LettersRead tape.now ws.old ws.new st style result }
{
    let mut after = st;
    while after.at < tape.len() && command::is_short_letter(tape, after.at, after.count) {
        let next = after.at + 1 + command::operand_width(0x02);
        after = after.put_short(ws, style, tape[after.at + 1], next);
    }
    after
}

// Leaves without a fault, as many as follow: letters and breaks, or the others. Each kind has a loop, since behind a
// letter or a break no run starts, which a loop of these alone lets the compiler see.
#[inline(always)]
fn read_leaves(tape: &[u8], ws: &mut [u8], st: State, inside: Inside, shown: bool) -> State
    requires { Ready tape.now ws.old st }
    ensures { LeavesRead tape.now ws.old ws.new shown inside.naming inside.depth st inside.style result }
{
    let mut after = st;
    while after.at < tape.len()
        && command::is_leaf(
            tape,
            after.at,
            after.count,
            inside.naming,
            inside.depth,
            shown,
        )
    {
        after = read_leaf(tape, ws, after, inside.style);
    }
    after
}

// A list or a name up to its 00, or the outer list to the tape's end.
#[cycle(lists)]
pub fn read_list(tape: &[u8], ws: &mut [u8], st: State, inside: Inside) -> Result<State, Refusal>
    requires { Ready tape.now ws.old st }
    ensures { ListRead tape.now ws.old ws.new inside.naming inside.depth st inside.style result }
{
    let mut s = st;
    // No `for` counts a place that moves on by commands, here and above.
    while s.at < tape.len() {
        let at = s.at;
        command::check(tape, at, s.count, inside.naming, inside.depth)?;
        if tape[at] == 0x00 {
            return Ok(s.finish(ws, inside.style, inside.naming, at + 1));
        }
        if command::is_opener(tape[at]) {
            s = read_segment(tape, ws, s, inside)?;
        } else {
            let leaf = read_leaf(tape, ws, s, inside.style);
            let letters = read_letters(tape, ws, leaf, inside.style);
            let silent = read_leaves(tape, ws, letters, inside, false);
            s = read_leaves(tape, ws, silent, inside, true);
        }
    }
    if command::is_outer(inside.naming, inside.depth) {
        return Ok(s);
    }
    Err(Cause::Unbalanced.at(tape.len()))
}

// One segment that has a list. The name of a voice is read as a list is.
#[cycle(lists)]
fn read_segment(tape: &[u8], ws: &mut [u8], st: State, inside: Inside) -> Result<State, Refusal>
    requires { Sound tape.now ws.old st inside.naming inside.depth × (is_opener (byte_of tape.now st) ≡ true) }
    ensures { SegmentRead tape.now ws.old ws.new inside.naming inside.depth st inside.style result }
{
    let at = st.at;
    let c = tape[at];
    let opened = st.onto(at + 1 + command::operand_width(c));
    if c == 0x09 {
        let named = read_list(tape, ws, opened, inside.name_in())?;
        return read_list(tape, ws, named, inside.list_in(inside.style));
    }
    let style = command::style_inside(tape, at, inside.style);
    read_list(tape, ws, opened, inside.list_in(style))
}
