// The answer of a reading, and its four numbers.
#![tactic(auto)]

ghost use Rattle.std.specs.Prelude.{◌≡◌};
ghost use Rattle.answer.specs.Numbers.{status_number, row, numbers};

use utf8::Utf8Error;

// The six lent slices: kinds and ends of tokens, events, and messages, starts and stops of diagnostics. Slices of numbers side by side, and
// none of structs, since C lends them so.
#[derive(Drop)]
pub struct Slices<'a> {
    pub kinds: &'a mut [u16],
    pub ends: &'a mut [u32],
    pub events: &'a mut [u16],
    pub messages: &'a mut [u16],
    pub starts: &'a mut [u32],
    pub stops: &'a mut [u32],
}

// What the call returns, as document 01's table and M-104 number the rows. FewCounts is the C call's alone: no reading answers with it.
#[derive(Clone, Copy)]
pub enum Status {
    Accepted = 0,
    TooLong = 1,
    NotUtf8 = 2,
    TokenRoom = 3,
    Refused = 4,
    OutputRoom = 5,
    FewCounts = 6,
    LimitOutOfRange = 9,
}

impl From<Status> for u64 {
    ghost from_gives = { λ status n. n ≡ status_number status };

    fn from(status: Status) -> u64 {
        status as u64
    }
}

// The rows of document 01's table, and M-104's, with their values. No Result: where the room is short, the slices hold a part of the
// reading, and the three counts say what it takes; `numbers` in specs/ gives each row its number and values.
#[derive(Clone, Copy)]
pub enum Answer {
    LimitOutOfRange,
    TooLong,
    NotUtf8(Utf8Error),
    TokenRoom(usize),
    Refused(usize),
    OutputRoom {
        tokens: usize,
        events: usize,
        diagnostics: usize,
    },
    Accepted {
        tokens: usize,
        events: usize,
        diagnostics: usize,
    },
}

// The status and the three numbers behind it.
#[derive(Clone, Copy)]
pub struct FourNumbers {
    pub status: u64,
    pub first: u64,
    pub second: u64,
    pub third: u64,
}

// Three counts behind a status.
fn row(status: Status, first: usize, second: usize, third: usize) -> FourNumbers
    ensures { result ≡ row (status_number status) first second third }
{
    FourNumbers {
        status: status.into(),
        first: first as u64,
        second: second as u64,
        third: third as u64,
    }
}

// The numbers of an answer in document 01's table.
impl From<Answer> for FourNumbers {
    ghost from_gives = { λ answer r. r ≡ numbers answer };

    fn from(answer: Answer) -> FourNumbers {
        match answer {
            Answer::LimitOutOfRange => row(Status::LimitOutOfRange, 0, 0, 0),
            Answer::TooLong => row(Status::TooLong, 0, 0, 0),
            Answer::NotUtf8(e) => row(Status::NotUtf8, e.valid_up_to, e.error_len, 0),
            Answer::TokenRoom(t) => row(Status::TokenRoom, t, 0, 0),
            Answer::Refused(n) => row(Status::Refused, n, 0, 0),
            Answer::OutputRoom {
                tokens,
                events,
                diagnostics,
            } => row(Status::OutputRoom, tokens, events, diagnostics),
            Answer::Accepted {
                tokens,
                events,
                diagnostics,
            } => row(Status::Accepted, tokens, events, diagnostics),
        }
    }
}
