// A picture drawn in stripes, by calls that each do some of the strokes of one stripe.
// What a job has done so far is in its record, by value: the calls keep nothing. `ws` is the workspace
// throughout. A call's parameters are document 01's, and are handed on as they are.
#![tactic(auto)]

mod stripe;

ghost use Rattle.std.specs.Prelude.{◌≡◌, ◌≤◌, min, length};
ghost use Rattle.tape.specs.Outcome.{accepted};
ghost use Rattle.tape.specs.Answer.{outcome_of};
ghost use Rattle.compositor.specs.Checked.{CueRead};
ghost use Rattle.compositor.specs.Read.{strokes_in};
ghost use Rattle.job.specs.Stripes.{most_stripes, division_of, stripes_with, new_record, no_record, counters_unsound};
ghost use Rattle.job.specs.Work.{open_call, step_strokes, stripe_call};
ghost use Rattle.job.specs.Worked.{Opened, Worked};
ghost use Rattle.job.specs.Ready.{Workable, Steppable, Did};

use compositor::strokes::Window;
use compositor::{Laid, Settings};
use tape::{Answer, Cause, Refusal};

// A count beside 64 numbers, and a record by value: document 01 and the C interface have both so.

// How a picture is divided into stripes, from the top: how many there are, and the end row of each,
// which is the first row below it. Those from the count on are not read.
#[derive(Clone, Copy, Default)]
pub struct Stripes {
    pub stripe_count: u32,
    pub end_rows: [u32; 64],
}

// How far a job is: its stripes, and for each how many strokes its rows have had.
#[derive(Clone, Copy, Default)]
pub struct JobRecord {
    pub stripes: Stripes,
    pub counters: [u32; 64],
}

// What a call of `open` or `work` gives: a refusal has a record too (`Opened`, `Worked`).
#[derive(Clone, Copy)]
pub struct JobAnswer {
    pub answer: Answer,
    pub job: JobRecord,
}

impl Stripes {
    // The same with 0 in the end rows that are not read.
    fn used(self) -> Stripes
        requires { length (division_of self) ≤ most_stripes }
        ensures { result ≡ stripes_with (division_of self) }
    {
        let mut ends = self.end_rows;
        ends[self.stripe_count as usize..].fill(0);
        Stripes {
            end_rows: ends,
            ..self
        }
    }
}

impl JobRecord {
    // No stripe has had a stroke.
    fn new(given: Stripes) -> JobRecord
        requires { length (division_of given) ≤ most_stripes }
        ensures { result ≡ new_record (division_of given) }
    {
        JobRecord {
            stripes: given.used(),
            counters: [0; 64],
        }
    }

    // Whether a counter is over the caption's strokes, or not 0 past the last stripe.
    fn is_unsound(self, total: usize) -> bool
        requires { length (division_of self.stripes) ≤ most_stripes }
        ensures { result ≡ counters_unsound (division_of self.stripes) total 0 self.counters }
    {
        let count = self.stripes.stripe_count as usize;
        for (k, &counter) in self.counters.iter().enumerate() {
            if stripe::most_counted(count, k, total) < counter as usize {
                return true;
            }
        }
        false
    }
}

// Checks what every call of a job checks, and reads its tape.
fn read_cue(
    s: Settings,
    tape: &[u8],
    ws: &mut [u8],
    size: usize,
    stripes: Stripes,
) -> Result<Laid, Refusal>
    ensures { CueRead s (open_call s (length ws.old) size tape.now (division_of stripes)) ws.old ws.new result }
{
    let layout = compositor::check(s, tape, ws.len(), size)?;
    stripe::check(s, stripes)?;
    compositor::lay_cue(layout, tape, ws)
}

// The call Open: zeroes the picture, and gives the record of a job that has done nothing yet. The
// answer is how many strokes the caption has. A refusal leaves the picture, and its record is zeros.
pub fn open(
    s: Settings,
    tape: &[u8],
    ws: &mut [u8],
    picture: &mut [u8],
    stripes: Stripes,
) -> JobAnswer
    ensures { Opened s tape.now ws.old ws.new
        picture.old picture.new (division_of stripes) (outcome_of result.answer) result.job }
{
    match read_cue(s, tape, ws, picture.len(), stripes) {
        Ok(laid) => {
            compositor::clear(picture, laid.layout.picture_bytes());
            JobAnswer {
                answer: Ok(laid.strokes),
                job: JobRecord::new(stripes),
            }
        }
        Err(refusal) => JobAnswer {
            answer: Err(refusal),
            job: JobRecord::default(),
        },
    }
}

// A step on a stripe that is there: does as many strokes as the budget has, or as are left, and counts
// them.
fn step(
    laid: Laid,
    ws: &[u8],
    picture: &mut [u8],
    job: &mut JobRecord,
    k: usize,
    budget: u32,
) -> usize
    requires { Steppable ws.now (length picture.old) job.old k laid }
    ensures { Did laid.layout.settings job.old k
        (accepted (step_strokes job.old k budget (strokes_in laid.layout.settings ws.now laid.lines)))
        ws.now picture.old picture.new (accepted result) job.new }
{
    let done = job.counters[k] as usize;
    let m = (budget as usize).min(laid.strokes - done);
    let window = Window {
        from: done,
        to: done + m,
    };
    stripe::draw_stripe(laid, ws, picture, job.stripes, k, window);
    job.counters[k] = (done + m) as u32;
    m
}

// Work where the caption lies in the workspace: the test of the record, the test of the stripe, and a
// step.
fn work_laid(
    laid: Laid,
    ws: &[u8],
    picture: &mut [u8],
    job: &mut JobRecord,
    stripe: u32,
    budget: u32,
) -> Answer
    requires { Workable ws.now (length picture.old) job.old laid }
    ensures { Did laid.layout.settings job.old stripe
        (stripe_call job.old stripe budget (strokes_in laid.layout.settings ws.now laid.lines))
        ws.now picture.old picture.new (outcome_of result) job.new }
{
    if job.is_unsound(laid.strokes) {
        return Err(Cause::CountersUnsound.at(0));
    }
    let count = job.stripes.stripe_count;
    if count <= stripe {
        return Err(Cause::NoSuchStripe.at(0));
    }
    Ok(step(laid, ws, picture, job, stripe as usize, budget))
}

// Work on a record where it lies. A refusal leaves it.
fn work_on(
    s: Settings,
    tape: &[u8],
    ws: &mut [u8],
    picture: &mut [u8],
    job: &mut JobRecord,
    stripe: u32,
    budget: u32,
) -> Answer
    ensures { Worked s tape.now ws.old ws.new
        picture.old picture.new job.old stripe budget (outcome_of result) job.new }
{
    let laid = read_cue(s, tape, ws, picture.len(), job.stripes)?;
    work_laid(laid, ws, picture, job, stripe, budget)
}

// The call Work: does as many strokes as the budget has, or as are left, on the rows of a stripe, and
// gives the record with them counted. The answer is how many they were. A refusal leaves the picture
// and the record.
pub fn work(
    s: Settings,
    tape: &[u8],
    ws: &mut [u8],
    picture: &mut [u8],
    job: JobRecord,
    stripe: u32,
    budget: u32,
) -> JobAnswer
    ensures { Worked s tape.now ws.old ws.new
        picture.old picture.new job stripe budget (outcome_of result.answer) result.job }
{
    let mut after = job;
    let answer = work_on(s, tape, ws, picture, &mut after, stripe, budget);
    JobAnswer { answer, job: after }
}
