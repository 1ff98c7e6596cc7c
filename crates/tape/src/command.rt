// The tape's commands: what each is, and what is refused in one. They go by their bytes, as in the definitions: an
// enum would name each a second time. A function takes what it asks about: a tape and a place, and parts of a state or of
// what a command stands inside, but neither whole.
ghost use Rattle.std.specs.Prelude.{◌≡◌, true, not, ◌&&◌, ◌||◌, ◌+◌, ◌≤◌, ◌<◌, length, ◌==◌};
ghost use Rattle.tape.specs.Style.{inside};
ghost use Rattle.tape.specs.Command.{deepest, most_letters, operand_width, code_point, is_letter, is_opener, is_scalar, added, fault_of, opener_of};
ghost use Rattle.tape.specs.Outcome.{accepted, unless};
ghost use Rattle.tape.specs.Answer.{outcome_of};
ghost use Rattle.tape.specs.Reading.{most_added, leaf_at, byte_at, rest_at, no_scalar, short_letter};

use crate::{Cause, Refusal, Style};

const DEEPEST: usize = 16;

const MOST_LETTERS: usize = 4096;

// How many operand bytes follow each command.
const WIDTHS: [u8; 12] = [0, 0, 1, 2, 3, 0, 0, 0, 3, 0, 0, 0];

pub fn operand_width(c: u8) -> usize
    requires { c < 12 }
    ensures { (result ≡ operand_width c) × (result ≤ 3) }
{
    WIDTHS[c as usize] as usize
}

// Letters and openers are a range each, with the names that the definitions give them.
#[tactic(auto, unfolding(crate::specs::Command::is_letter))]
fn is_letter(c: u8) -> bool
    ensures { result ≡ is_letter c }
{
    matches!(c, 0x02..=0x04)
}

#[tactic(auto, unfolding(crate::specs::Command::is_opener))]
pub fn is_opener(c: u8) -> bool
    ensures { result ≡ is_opener c }
{
    matches!(c, 0x06..=0x0a)
}

#[tactic(auto, unfolding(crate::specs::Command::is_scalar))]
fn is_scalar(v: u32) -> bool
    ensures { result ≡ is_scalar v }
{
    char::from_u32(v).is_some()
}

// The code point of the letter command at a place, one to three bytes. The cases are the table's, and
// proved from it: reading it here too would cost a twentieth of the time of longer letters.
pub fn code_point(tape: &[u8], at: usize) -> u32
    requires { (is_letter (byte_at tape.now at) ≡ true) × (at + operand_width (byte_at tape.now at) < length tape.now) }
    ensures { (result ≡ code_point (byte_at tape.now at) (rest_at tape.now at)) × (result < 16777216) }
{
    match tape[at] {
        0x02 => u32::from(tape[at + 1]),
        0x03 => u32::from_be_bytes([0, 0, tape[at + 1], tape[at + 2]]),
        _ => u32::from_be_bytes([0, tape[at + 1], tape[at + 2], tape[at + 3]]),
    }
}

// How many letters a command adds.
#[tactic(auto, unfolding(crate::specs::Command::added))]
fn letters_added(naming: bool, c: u8) -> usize
    ensures { (result ≡ added naming c) × (result ≤ most_added) }
{
    match c {
        0x02..=0x05 => 1,
        0x00 if naming => 2,
        _ => 0,
    }
}

// A command that no name holds.
fn is_strange(naming: bool, c: u8) -> bool
    ensures { result ≡ (naming && not (c == 0 || is_letter c)) }
{
    naming && !(c == 0x00 || is_letter(c))
}

// An opener whose list would lie too deep.
fn is_too_deep(c: u8, depth: usize) -> bool
    ensures { result ≡ (is_opener c && depth == deepest) }
{
    is_opener(c) && depth == DEEPEST
}

// A letter command with no Unicode scalar value.
fn is_no_scalar(tape: &[u8], at: usize) -> bool
    requires { at + operand_width (byte_at tape.now at) < length tape.now }
    ensures { result ≡ no_scalar tape.now at }
{
    is_letter(tape[at]) && !is_scalar(code_point(tape, at))
}

// In the outer list, and in no name.
pub fn is_outer(naming: bool, depth: usize) -> bool
    ensures { result ≡ (not naming && depth == 0) }
{
    !naming && depth == 0
}

// An end that no list and no name has.
fn is_stray_end(c: u8, naming: bool, depth: usize) -> bool
    ensures { result ≡ (c == 0 && (not naming && depth == 0)) }
{
    c == 0x00 && is_outer(naming, depth)
}

// The first fault of the command at a place. Laid into each loop: as a call its answer is handed over in memory, and a
// letter of one byte takes three times the instructions.
#[inline(always)]
#[tactic(auto, unfolding(crate::specs::Command::fault_of))]
pub fn check(
    tape: &[u8],
    at: usize,
    count: usize,
    naming: bool,
    depth: usize,
) -> Result<(), Refusal>
    requires { (at < length tape.now) × (count ≤ most_letters) }
    ensures { outcome_of result
        ≡ unless (fault_of naming depth count (byte_at tape.now at) (rest_at tape.now at)) at (accepted tt) }
{
    let c = tape[at];
    if 0x0b < c {
        return Err(Cause::UnknownCommand.at(at));
    }
    if is_strange(naming, c) {
        return Err(Cause::NotInAName.at(at));
    }
    if is_too_deep(c, depth) {
        return Err(Cause::TooDeep.at(at));
    }
    if tape.len() - (at + 1) < operand_width(c) {
        return Err(Cause::OperandsMissing.at(at));
    }
    if is_no_scalar(tape, at) {
        return Err(Cause::NotAScalar.at(at));
    }
    if MOST_LETTERS < count + letters_added(naming, c) {
        return Err(Cause::TooManyLetters.at(at));
    }
    if is_stray_end(c, naming, depth) {
        return Err(Cause::Unbalanced.at(at));
    }
    Ok(())
}

// Whether the command at a place is a letter of one byte, and has room: it has no fault then.
#[tactic(auto, unfolding(crate::specs::Reading::short_letter))]
pub fn is_short_letter(tape: &[u8], at: usize, count: usize) -> bool
    requires { at < length tape.now }
    ensures { result ≡ short_letter tape.now at count }
{
    tape[at] == 0x02 && operand_width(0x02) <= tape.len() - (at + 1) && count < MOST_LETTERS
}

// Whether the command at a place is a leaf without a fault: a letter or a break, or else an empty text or a time mark.
// Most are letters of one byte, which are looked at first.
#[inline(always)]
pub fn is_leaf(
    tape: &[u8],
    at: usize,
    count: usize,
    naming: bool,
    depth: usize,
    shown: bool,
) -> bool
    requires { (at < length tape.now) × (count ≤ most_letters) }
    ensures { result ≡ leaf_at tape.now shown naming depth at count }
{
    if shown && is_short_letter(tape, at, count) {
        return true;
    }
    let c = tape[at];
    let kind = if shown {
        matches!(c, 0x02..=0x05)
    } else {
        matches!(c, 0x01 | 0x0b)
    };
    kind && check(tape, at, count, naming, depth).is_ok()
}

// The style inside a list that the command at a place opens.
pub fn style_inside(tape: &[u8], at: usize, s: Style) -> Style
    requires { at + operand_width (byte_at tape.now at) < length tape.now }
    ensures { result ≡ inside (opener_of (byte_at tape.now at) (rest_at tape.now at)) s }
{
    match tape[at] {
        0x06 => Style { bold: true, ..s },
        0x07 => Style { italic: true, ..s },
        0x08 => Style {
            red: tape[at + 1],
            green: tape[at + 2],
            blue: tape[at + 3],
            alpha: 0xff,
            ..s
        },
        _ => s,
    }
}
