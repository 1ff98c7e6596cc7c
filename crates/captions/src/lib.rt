// The captions for callers in C and Rust: each function is one of the calls, on numbers and slices.
//
// A call answers with one number: its answer, or a refusal, the refusal's number times 2^32 and its
// place. No answer reaches 2^32.
#![tactic(auto)]

ghost use Rattle.std.specs.Prelude.{◌≡◌, length};
ghost use Rattle.job.specs.Stripes.{most_stripes};
ghost use Rattle.captions.specs.Interface.{settings_of, stripes_of, record_of, WrapAnswered, DrawAnswered, OpenAnswered, WorkAnswered};

use compositor::Settings;
use job::{JobRecord, Stripes};

// The call Wrap: answers how many lines the tape makes. The workspace then begins with each line's
// letters and columns, two bytes each, high byte first, and then the numbers of the letters on lines.
#[unsafe(no_mangle)]
pub extern "C" fn captions_wrap(tape: &[u8], workspace: &mut [u8], column_limit: u32) -> u64
    ensures { WrapAnswered tape.now workspace.old workspace.new column_limit result }
{
    tape::packed(wrap::wrap(tape, workspace, column_limit))
}

// The settings from numbers in their order; a color is 0xRRGGBBAA. A function, as those below: a `From` would be of no
// type of this crate.
fn settings_of(words: [u32; 12]) -> Settings
    ensures { result ≡ settings_of words }
{
    Settings {
        width: words[0],
        height: words[1],
        default_color: font::color_bytes(words[2]),
        outline_color: font::color_bytes(words[3]),
        line_height_px: words[4],
        bottom_margin_px: words[5],
        outline_px: words[6],
        align: words[7],
        glyph_mode: words[8],
        side_margin_px: words[9],
        slant: words[10],
        outline_cap_px: words[11],
    }
}

// The call Draw: answers how many strokes the tape's caption has, which the picture then shows on
// zeros. A refusal leaves the picture as it is.
#[unsafe(no_mangle)]
pub extern "C" fn captions_draw(
    settings: &[u32; 12],
    tape: &[u8],
    workspace: &mut [u8],
    picture: &mut [u8],
) -> u64
    ensures { DrawAnswered settings.now tape.now workspace.old workspace.new
        picture.old picture.new result }
{
    let s = settings_of(*settings);
    tape::packed(compositor::render_into(s, tape, workspace, picture))
}

// The numbers of a part, one for each stripe.
fn taken(part: &[u32]) -> [u32; 64]
    requires { length part.now ≡ most_stripes }
    ensures { result ≡ part.now }
{
    *part.first_chunk().unwrap()
}

// Stripes from numbers: the count, and then the end rows.
fn stripes_of(words: [u32; 65]) -> Stripes
    ensures { result ≡ stripes_of words }
{
    Stripes {
        stripe_count: words[0],
        end_rows: taken(&words[1..]),
    }
}

// A job record from numbers: its stripes, and then the counters.
fn record_of(words: [u32; 129]) -> JobRecord
    ensures { result ≡ record_of words }
{
    JobRecord {
        stripes: stripes_of(*words.first_chunk().unwrap()),
        counters: taken(&words[65..]),
    }
}

// The numbers that stand for a job record.
fn words_of(job: JobRecord) -> [u32; 129]
    ensures { record_of result ≡ job }
{
    let mut words = [0; 129];
    words[0] = job.stripes.stripe_count;
    words[1..65].copy_from_slice(&job.stripes.end_rows);
    words[65..].copy_from_slice(&job.counters);
    words
}

// The call Open: zeroes the picture and gives the record of a job in such stripes. Answers how many
// strokes the tape's caption has. A refusal leaves the picture as it is, and gives zeros.
#[unsafe(no_mangle)]
pub extern "C" fn captions_open(
    settings: &[u32; 12],
    tape: &[u8],
    workspace: &mut [u8],
    picture: &mut [u8],
    stripes: &[u32; 65],
    record: &mut [u32; 129],
) -> u64
    ensures { OpenAnswered settings.now tape.now workspace.old workspace.new
        picture.old picture.new stripes.now «record».new result }
{
    let s = settings_of(*settings);
    let handed = stripes_of(*stripes);
    let opened = job::open(s, tape, workspace, picture, handed);
    *record = words_of(opened.job);
    tape::packed(opened.answer)
}

// The call Work: does as many strokes as the budget has, or as are left, on the rows of a stripe, and
// counts them in the record. Answers how many they were. A refusal leaves the picture and the record.
#[unsafe(no_mangle)]
pub extern "C" fn captions_work(
    settings: &[u32; 12],
    tape: &[u8],
    workspace: &mut [u8],
    picture: &mut [u8],
    record: &mut [u32; 129],
    stripe: u32,
    budget: u32,
) -> u64
    ensures { WorkAnswered settings.now tape.now workspace.old workspace.new
        picture.old picture.new «record».old «record».new stripe budget result }
{
    let s = settings_of(*settings);
    let before = record_of(*record);
    let worked = job::work(s, tape, workspace, picture, before, stripe, budget);
    let after = worked.job;
    *record = words_of(after);
    tape::packed(worked.answer)
}
