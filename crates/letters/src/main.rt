// Replays a sample: reads tapes, each behind two bytes of length, high byte first, and writes a
// line for each: how many letters it has and the digest of their bytes, or its refusal.
//
// The file `stdin` holds tapes of random segments, and `stdout` what the original makes of them
// (`compare sample` and `compare sample-answers` in host/ write them), so each run of the gate
// holds the reader to the original.
#![tactic(auto)]

use report::{Entries, SampleError};
use std::io;
use std::io::Read;
use tape::Style;

// Reads one tape.
fn print_tape(rt: &impl Print, tape: &[u8], workspace: &mut [u8]) -> io::Result<()> {
    match tape::read_tape(tape, workspace, Style::default_with([255; 4])) {
        Ok(count) => {
            let digest = report::digest(0, &workspace[..8 * count]);
            println!(rt; "{count} {digest:08x}")
        }
        Err(refusal) => println!(rt; "{refusal}"),
    }
}

// Reads tape after tape of the sample that the input has.
fn replay(
    rt: &impl Print,
    input: &mut impl Read,
    room: &mut [u8; report::ROOM],
    workspace: &mut [u8],
) -> Result<(), SampleError> {
    for entry in Entries::<2>::new(report::read_sample(input, room)?) {
        print_tape(rt, entry?.body, workspace)?;
    }
    Ok(())
}

fn main(rt: HostRuntime) -> io::Result<()> {
    let mut room = [0; report::ROOM];
    let mut workspace = [0; report::ROOM];
    let replayed = replay(&rt, &mut rt.stdin(), &mut room, &mut workspace);
    report::finish(&rt, replayed)
}
