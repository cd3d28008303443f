// The reader of Binary HTTP: whole messages, from control data to padding.
#![tactic(auto)]

mod heads;
mod request;
mod response;
mod rest;
pub mod whole;

use binary::Cursor;
use messages::{Framing, Notes};

// A response's head that was read: its status, the place behind it and how many kept fields stand in the lent ranges now; of a final one, what its
// lines state.
#[derive(Clone, Copy)]
enum Head {
    Informational {
        status: u32,
        end: Cursor,
        kept: usize,
    },
    Final {
        status: u32,
        end: Cursor,
        kept: usize,
        notes: Notes,
    },
}

// All heads of a response: the final status, the place behind the final head, how many informational heads there are, how many kept fields the final
// head has and what its lines state.
#[derive(Clone, Copy)]
struct HeadsRead {
    status: u32,
    end: Cursor,
    count: usize,
    kept: usize,
    notes: Notes,
}

// Trailers that were read: the place behind them, how many are kept.
#[derive(Clone, Copy)]
struct TrailersRead {
    end: Cursor,
    kept: usize,
}

// What stands behind a header section and was read to the end of the input: how many non-empty chunks, how many octets they are, how many kept trailers; how many
// integers of the message are long.
#[derive(Clone, Copy)]
struct RestRead {
    chunks: usize,
    total: usize,
    trailers: usize,
    long: usize,
}

// A final head that was judged by what it states: whether the message may have content, what the content must agree with, and the length that the message
// states where it has none.
#[derive(Clone, Copy)]
struct JudgedFinal {
    body: bool,
    framing: Framing,
    stated: Option<usize>,
}
