// What a call answers: how many letters, lines or strokes there are, or were drawn; or why it is refused, and where.
ghost use Rattle.std.specs.Prelude.{◌≡◌, Some};
ghost use Rattle.std.specs.Fmt.{DisplaysOnOk};
ghost use Rattle.tape.specs.Outcome.{refused};
ghost use Rattle.tape.specs.Answer.{number_of, outcome_of, printed};
ghost use Rattle.tape.specs.Packed.{packed};
ghost use Rattle.tape.specs.Near.{Near};

use std::error::Error;
use std::fmt;

// Why a call is refused, by the numbers of the definitions.
#[derive(Clone, Copy, Debug, PartialEq, Eq)]
pub enum Cause {
    UnknownCommand = 1,
    OperandsMissing = 2,
    Unbalanced = 3,
    NotAScalar = 4,
    TooDeep = 5,
    TooManyLetters = 6,
    NotInAName = 7,
    OutOfRange = 8,
    PictureTooShort = 9,
    TapeTooLong = 10,
    WorkspaceTooShort = 11,
    NoSuchStripe = 12,
    StripesUnfit = 13,
    CountersUnsound = 14,
}

impl Cause {
    pub fn number(self) -> u8
        ensures { result ≡ number_of self }
    {
        self as u8
    }

    pub fn at(self, place: usize) -> Refusal
        ensures { result ≡ record { cause = self; place = place } }
    {
        Refusal { cause: self, place }
    }
}

// A refusal: why, and at which byte of the tape, or 0 where it is not the tape that is refused.
#[derive(Clone, Copy, Debug, PartialEq, Eq)]
pub struct Refusal {
    pub cause: Cause,
    pub place: usize,
}

impl fmt::Display for Refusal {
    ghost output = { λ r. Some (printed r) };

    fn fmt<W: fmt::Write>(&self, f: &mut fmt::Formatter<W>) -> fmt::Result
        ensures { DisplaysOnOk W.write_str_gives f.old result (Some (printed self.now)) f.new }
    {
        write!(f, "refused {} {}", self.cause.number(), self.place)
    }
}

impl Error for Refusal {}

pub type Answer = Result<usize, Refusal>;

// A refusal as one number, whatever its own number is.
pub fn packed_refusal(number: u8, place: usize) -> u64
    requires { Near (refused number place) }
    ensures { result ≡ packed (refused number place) }
{
    number as u64 * 0x1_0000_0000 + place as u64
}

// An answer as one number: itself, or the refusal's number times 2^32 and its place. No `From`: neither
// type is of this crate.
pub fn packed(answer: Answer) -> u64
    requires { Near (outcome_of answer) }
    ensures { result ≡ packed (outcome_of answer) }
{
    match answer {
        Ok(n) => n as u64,
        Err(refusal) => packed_refusal(refusal.cause.number(), refusal.place),
    }
}
