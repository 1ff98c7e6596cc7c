// Replays a sample of calls of Draw, and of jobs: an Open and the Works after it. Each entry has, high
// byte first: width and height, two bytes each; the default color and the outline's, red, green, blue,
// alpha; line height, bottom margin, outline, alignment and glyph mode, four bytes each; the side margin
// in two bytes; in one byte each slant, outline cap, how many stripes there are, and how many of their
// end rows are written; then two bytes each: 0 for a Draw, or 1 more than the job has Works; how many
// bytes the picture's buffer has; and how many bytes follow. Those are the end rows, two bytes each,
// of which the others are 0; the Works, each its stripe in one byte and its budget in four; and then the
// tape. Writes a line for each call: how many strokes the caption has, or a Work did, and a digest of
// the whole buffer, which held 5A throughout before the first; or the refusal. A job whose Open is
// refused ends with it.
//
// The file `stdin` holds random captions and jobs, and faulty calls, and `stdout` what the original
// makes of the captions, also where it is stopped after so many strokes, and what the documents say of
// the others (`compare draw-sample` and `compare draw-sample-answers` in host/ write them), so each
// run of the gate holds drawing, in one call and in many, to the original.
#![tactic(auto)]

ghost use Rattle.std.specs.Prelude.{◌≡◌, ◌+◌, ◌≤◌, length, take, drop};
ghost use Rattle.std.specs.Int.{w32, from_be_bytes};

use compositor::Settings;
use job::Stripes;
use report::{Entries, Entry, SampleError};
use std::io;
use std::io::Read;
use tape::Answer;

// The bytes of an entry before its end rows.
const HEADER: usize = 44;

// The bytes of a Work.
const WORK: usize = 5;

// The number in four bytes at a place, high byte first. `report::number_at` does it for two: the library
// has no trait of numbers in their bytes.
fn long_at(bytes: &[u8], at: usize) -> u32
    requires { at + 4 ≤ length bytes.now }
    ensures { result ≡ from_be_bytes w32 (take 4 (drop at bytes.now)) }
{
    u32::from_be_bytes(report::array_at(bytes, at))
}

fn settings(header: &[u8; HEADER]) -> Settings {
    Settings {
        width: report::number_at(header, 0) as u32,
        height: report::number_at(header, 2) as u32,
        default_color: report::array_at(header, 4),
        outline_color: report::array_at(header, 8),
        line_height_px: long_at(header, 12),
        bottom_margin_px: long_at(header, 16),
        outline_px: long_at(header, 20),
        align: long_at(header, 24),
        glyph_mode: long_at(header, 28),
        side_margin_px: report::number_at(header, 32) as u32,
        slant: header[34] as u32,
        outline_cap_px: header[35] as u32,
    }
}

// So many stripes; the end rows that are not written are 0.
fn stripes(count: u8, written: &[u8]) -> Stripes {
    let mut end_rows = [0; 64];
    for (end_row, bytes) in end_rows.iter_mut().zip(written.as_chunks::<2>().0) {
        *end_row = u16::from_be_bytes(*bytes) as u32;
    }
    Stripes {
        stripe_count: count as u32,
        end_rows,
    }
}

fn write_answer(rt: &impl Print, answer: Answer, picture: &[u8]) -> io::Result<()> {
    match answer {
        Ok(strokes) => {
            let digest = report::digest(0, picture);
            println!(rt; "{strokes} {digest:08x}")
        }
        Err(refusal) => println!(rt; "{refusal}"),
    }
}

// Opens a job, and does its Works where that is not refused, each on what the call before it left.
fn work_through(
    rt: &impl Print,
    s: Settings,
    stripes: Stripes,
    works: &[u8],
    tape: &[u8],
    workspace: &mut [u8],
    picture: &mut [u8],
) -> io::Result<()> {
    let opened = job::open(s, tape, workspace, picture, stripes);
    write_answer(rt, opened.answer, picture)?;
    if opened.answer.is_err() {
        return Ok(());
    }
    let mut record = opened.job;
    for work in works.as_chunks::<WORK>().0 {
        let stripe = work[0] as u32;
        let budget = long_at(work, 1);
        let done = job::work(s, tape, workspace, picture, record, stripe, budget);
        write_answer(rt, done.answer, picture)?;
        record = done.job;
    }
    Ok(())
}

// Makes the calls of one entry.
fn print_calls(
    rt: &impl Print,
    entry: Entry<'_, HEADER>,
    workspace: &mut [u8],
    picture: &mut [u8; report::ROOM],
) -> Result<(), SampleError> {
    let Entry { header, body } = entry;
    let calls = report::number_at(header, 38) as usize;
    let (written, behind) = body
        .split_at_checked(2 * header[37] as usize)
        .ok_or(SampleError::CutShort)?;
    let (works, tape) = behind
        .split_at_checked(WORK * calls.saturating_sub(1))
        .ok_or(SampleError::CutShort)?;
    let s = settings(header);
    let picture = &mut picture[..report::number_at(header, 40) as usize];
    picture.fill(0x5a);
    if calls == 0 {
        let answer = compositor::render_into(s, tape, workspace, picture);
        write_answer(rt, answer, picture)?;
    } else {
        let stripes = stripes(header[36], written);
        work_through(rt, s, stripes, works, tape, workspace, picture)?;
    }
    Ok(())
}

// Makes the calls of entry after entry of the sample that the input has.
fn replay(
    rt: &impl Print,
    input: &mut impl Read,
    room: &mut [u8; report::ROOM],
    workspace: &mut [u8],
    picture: &mut [u8; report::ROOM],
) -> Result<(), SampleError> {
    for entry in Entries::<HEADER>::new(report::read_sample(input, room)?) {
        print_calls(rt, entry?, workspace, picture)?;
    }
    Ok(())
}

fn main(rt: HostRuntime) -> io::Result<()> {
    let mut room = [0; report::ROOM];
    let mut workspace = [0; report::ROOM];
    let mut picture = [0; report::ROOM];
    let replayed = replay(
        &rt,
        &mut rt.stdin(),
        &mut room,
        &mut workspace,
        &mut picture,
    );
    report::finish(&rt, replayed)
}
