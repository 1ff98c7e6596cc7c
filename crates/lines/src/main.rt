// Reads a tape from standard input and writes the lines that it makes, at most four columns each: the
// word `lines` and how many there are; then of each line its index, letters and columns. A tape that
// is not admitted gives the word `refused`, the refusal's number and its place.
#![tactic(auto)]

use std::io;
use std::io::Read;

const LIMIT: u32 = 4;

// One byte more than a tape may have, so that a longer one is seen to be too long.
const ENOUGH: usize = tape::MOST_BYTES + 1;

// Writes the lines of a table, four bytes each.
fn write_lines(rt: &impl Print, table: &[u8]) -> io::Result<()> {
    let (entries, _) = table.as_chunks::<4>();
    let lines = entries.len();
    println!(rt; "lines {lines}")?;
    for (line, entry) in entries.iter().enumerate() {
        let letters = report::number_at(entry, 0);
        let columns = report::number_at(entry, 2);
        println!(rt; "{line} {letters} {columns}")?;
    }
    Ok(())
}

// Wraps what the input has, as far as the buffer takes it.
fn wrap_input(
    rt: &impl Print,
    input: &mut impl Read,
    buffer: &mut [u8],
    workspace: &mut [u8],
) -> io::Result<()> {
    let end = report::read_full(input, buffer)?;
    match wrap::wrap(&buffer[..end], workspace, LIMIT) {
        Ok(lines) => write_lines(rt, &workspace[..4 * lines]),
        Err(refusal) => println!(rt; "{refusal}"),
    }
}

fn main(rt: HostRuntime) -> io::Result<()> {
    let mut buffer = [0; ENOUGH];
    let mut workspace = [0; tape::LEAST_ROOM];
    wrap_input(&rt, &mut rt.stdin(), &mut buffer, &mut workspace)
}
