// Replays a sample of wrapped tapes: each entry has a column limit and a tape's length, two bytes
// each, high byte first, and then the tape. Writes a line for each: how many lines the tape makes and
// a digest, of each line's letters and columns and then of the code points of the letters on lines;
// or the refusal.
//
// The file `stdin` holds random cues and faulty tapes, and `stdout` what the original makes of the
// cues, and what document 01 says of the others (`compare lines-sample` and `compare
// lines-sample-answers` in host/ write them), so each run of the gate holds wrapping to the original.
#![tactic(auto)]

ghost use Rattle.std.specs.Prelude.{◌*◌, ◌≤◌, length};
ghost use Rattle.wrap.specs.Laid.{two_byte_numbers, most_lines};

use report::{Entries, Entry, SampleError};
use std::io;
use std::io::Read;
use tape::Style;

// How many letters stand on the lines of a table.
fn letters_on(table: &[u8]) -> usize
    requires { length table.now ≤ 4 * most_lines }
    ensures { result ≤ two_byte_numbers * most_lines }
{
    let (lines, _) = table.as_chunks::<4>();
    let mut letters = 0;
    for line in lines {
        letters += report::number_at(line, 0) as usize;
    }
    letters
}

// The digest d with the code points of `count` letters whose numbers these are: so many as the table says,
// of which nothing is proved here. A number that no letter has ends it.
fn digest_letters(d: u32, numbers: &[u8], count: usize, letters: &[u8]) -> u32 {
    let mut more = d;
    let (numbers, _) = numbers.as_chunks::<2>();
    for number in numbers.iter().take(count) {
        let at = 8 * u16::from_be_bytes(*number) as usize;
        let Some(code) = letters.get(at..at + 3) else {
            return more;
        };
        more = report::digest(more, code);
    }
    more
}

fn write_lines(rt: &impl Print, lines: usize, workspace: &[u8], letters: &[u8]) -> io::Result<()>
    requires { (4 * lines ≤ length workspace.now) × (lines ≤ most_lines) }
{
    let (table, numbers) = workspace.split_at(4 * lines);
    let d = report::digest(0, table);
    let digest = digest_letters(d, numbers, letters_on(table), letters);
    println!(rt; "{lines} {digest:08x}")
}

// Wraps one tape; its letters are read once more, since their numbers tell little of them.
fn print_lines(
    rt: &impl Print,
    tape: &[u8],
    limit: u32,
    workspace: &mut [u8],
    letters: &mut [u8],
) -> io::Result<()> {
    match wrap::wrap(tape, workspace, limit) {
        Ok(lines) => {
            // It was read once, so that it is not refused now.
            let _ = tape::read_tape(tape, letters, Style::default_with([255; 4]));
            write_lines(rt, lines, workspace, letters)
        }
        Err(refusal) => println!(rt; "{refusal}"),
    }
}

// Wraps tape after tape of the sample that the input has.
fn replay(
    rt: &impl Print,
    input: &mut impl Read,
    room: &mut [u8; report::ROOM],
    workspace: &mut [u8],
    letters: &mut [u8],
) -> Result<(), SampleError> {
    for entry in Entries::<4>::new(report::read_sample(input, room)?) {
        let Entry { header, body } = entry?;
        let limit = report::number_at(header, 0) as u32;
        print_lines(rt, body, limit, workspace, letters)?;
    }
    Ok(())
}

// It is alike to that of `replay`: without a heap the buffers that are lent stand in each `main`.
fn main(rt: HostRuntime) -> io::Result<()> {
    let mut room = [0; report::ROOM];
    let mut workspace = [0; report::ROOM];
    let mut letters = [0; report::ROOM];
    let replayed = replay(
        &rt,
        &mut rt.stdin(),
        &mut room,
        &mut workspace,
        &mut letters,
    );
    report::finish(&rt, replayed)
}
