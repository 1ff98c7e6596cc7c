// What the programs share that replay samples and write answers: a sample, its entries, the numbers
// in their bytes, and digests. Each function that reads or writes ends with an error where the input
// cannot be read, or where the output takes no more. Inputs and buffers are handed on as `main` has them:
// there is no heap for a value that keeps them.
#![tactic(auto)]

ghost use Rattle.std.specs.Prelude.{◌≡◌, ◌+◌, ◌≤◌, ◌<◌, length, take, drop, ◌++◌, IfOk, IfSome};
ghost use Rattle.std.specs.Iterator.{at_most};
ghost use Rattle.std.specs.Int.{w16, from_be_bytes};
ghost use Rattle.report.specs.Bounds.{most_header};

use std::error::Error;
use std::io::Read;
use std::{fmt, io};

// One byte more than a sample may have, so that a longer one is seen to be too long.
pub const ROOM: usize = 65536;

// Why a sample is not replayed to its end.
#[derive(Debug, Drop)]
pub enum SampleError {
    TooLong,
    CutShort,
    Io(io::Error),
}

impl fmt::Display for SampleError {
    fn fmt<W: fmt::Write>(&self, f: &mut fmt::Formatter<W>) -> fmt::Result {
        match self {
            SampleError::TooLong => write!(f, "the sample has more than 65,535 bytes"),
            SampleError::CutShort => write!(f, "the sample is cut short"),
            SampleError::Io(error) => write!(f, "{error}"),
        }
    }
}

impl Error for SampleError {}

impl From<io::Error> for SampleError {
    fn from(error: io::Error) -> SampleError {
        SampleError::Io(error)
    }
}

// Reads a sample.
pub fn read_sample<'a>(
    input: &mut impl Read,
    room: &'a mut [u8; ROOM],
) -> Result<&'a [u8], SampleError>
    ensures { IfOk result (λ sample. length sample.now < ROOM) }
{
    let size = read_full(input, room)?;
    if size == ROOM {
        return Err(SampleError::TooLong);
    }
    Ok(&room[..size])
}

// Reads until the buffer is full or the input ends, and returns how many bytes stand at its start.
// A method of `Read` asks for bytes that the input may not have, or for a `Vec`.
pub fn read_full(input: &mut impl Read, buffer: &mut [u8]) -> io::Result<usize>
    ensures { IfOk result (λ n. n ≤ length buffer.new) }
{
    let mut done = 0;
    while done < buffer.len() {
        let n = input.read(&mut buffer[done..])?;
        if n == 0 {
            break;
        }
        done += n;
    }
    Ok(done)
}

// An entry of a sample: a header, whose last two bytes say how many bytes follow it, and those.
#[derive(Clone, Copy)]
pub struct Entry<'a, const HEADER: usize> {
    pub header: &'a [u8; HEADER],
    pub body: &'a [u8],
}

// The entries of a sample, one after the other. One that is cut short is an error, and the last.
#[derive(Drop)]
pub struct Entries<'a, const HEADER: usize> {
    rest: &'a [u8],
    ghost sized: { (2 ≤ HEADER) × (HEADER ≤ most_header) },
}

impl<'a, const HEADER: usize> Entries<'a, HEADER> {
    pub fn new(sample: &'a [u8]) -> Self
        requires { (2 ≤ HEADER) × (HEADER ≤ most_header) }
    {
        Entries { rest: sample }
    }
}

impl<'a, const HEADER: usize> Iterator for Entries<'a, HEADER> {
    type Item = Result<Entry<'a, HEADER>, SampleError>;

    ghost remaining = { λ s. at_most (length s.rest.now) };

    fn next(&mut self) -> Option<Result<Entry<'a, HEADER>, SampleError>> {
        if self.rest.is_empty() {
            return None;
        }
        match split_entry(self.rest) {
            Some((entry, rest)) => {
                self.rest = rest;
                Some(Ok(entry))
            }
            None => {
                self.rest = &[];
                Some(Err(SampleError::CutShort))
            }
        }
    }
}

// The first entry, and what stands behind it; `None` where it is cut short.
fn split_entry<'a, const HEADER: usize>(entries: &'a [u8]) -> Option<(Entry<'a, HEADER>, &'a [u8])>
    requires { (2 ≤ HEADER) × (HEADER ≤ most_header) }
    ensures shorter { IfSome result (λ r. length r.1.now < length entries.now) }
    ensures whole { IfSome result (λ r. entries.now ≡ r.0.header.now ++ (r.0.body.now ++ r.1.now)) }
{
    let (header, behind) = entries.split_first_chunk::<HEADER>()?;
    let (body, rest) = behind.split_at_checked(number_at(header, HEADER - 2) as usize)?;
    Some((Entry { header, body }, rest))
}

// The N bytes at a place.
pub fn array_at<const N: usize>(bytes: &[u8], at: usize) -> [u8; N]
    requires { at + N ≤ length bytes.now }
    ensures { result ≡ take N (drop at bytes.now) }
{
    *bytes[at..].first_chunk().unwrap()
}

// The number in two bytes at a place, high byte first: one line over the library, which has no trait of numbers in
// their bytes.
pub fn number_at(bytes: &[u8], at: usize) -> u16
    requires { at + 2 ≤ length bytes.now }
    ensures { result ≡ from_be_bytes w16 (take 2 (drop at bytes.now)) }
{
    u16::from_be_bytes(array_at(bytes, at))
}

// The digest d with more bytes: each in turn is added, plus one, to the digest times a prime.
pub fn digest(d: u32, bytes: &[u8]) -> u32 {
    bytes.iter().fold(
        d,
        |d, &byte| d.wrapping_mul(0x0100_0193).wrapping_add(byte as u32 + 1),
    )
}

// Ends a program whose sample was replayed: what is wrong with a sample is written last.
pub fn finish(rt: &impl Print, replayed: Result<(), SampleError>) -> io::Result<()> {
    match replayed {
        Ok(()) => Ok(()),
        Err(SampleError::Io(error)) => Err(error),
        Err(error) => println!(rt; "{error}"),
    }
}
