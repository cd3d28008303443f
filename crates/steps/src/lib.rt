// A request of HTTP/1.1 that is read one octet at a step: its state, and the ends of lines and of content.
// Here and nowhere else: what a state says of the octets so far. Lines are judged by the first reader's own functions.
#![tactic(auto)]

use messages::{Notes, PathPrefix};
use step_lines::Present;

pub mod change; // change.rt: small changes of a state
pub mod head; // head.rt: the end of a request line, of a field line, of the head
pub mod body; // body.rt: content, chunks, trailers
pub mod reader; // reader.rt: beginning and step
pub mod many; // many.rt: the steps of many octets

// What is read: the request line; a field line; content of a stated length; a chunk line; a chunk with its CR LF; a trailer line; or nothing more.
#[derive(Clone, Copy)]
pub enum Phase {
    RequestLine,
    FieldLine,
    Content,
    ChunkLine,
    Chunk,
    TrailerLine,
    Ended,
    Refused,
}

// What was told and what is kept of a request: the scheme; whether the target has the authority; the method, which is the first octets of the room; where
// authority and path stand in it, what is put before the path, and where all of this ends.
#[derive(Clone, Copy)]
pub struct Control {
    pub scheme: u32,
    pub given: bool,
    pub method: usize,
    pub host: usize,
    pub hostlen: usize,
    pub path: usize,
    pub pathlen: usize,
    pub prefix: PathPrefix,
    pub end: usize,
}

// How much was read behind the request line: kept header lines, chunks, the octets of content, the size of the present chunk, kept trailer lines.
#[derive(Clone, Copy)]
pub struct Tally {
    pub headers: usize,
    pub chunks: usize,
    pub content: usize,
    pub size: usize,
    pub trailers: usize,
}

// Where a request stands. `lines` and `notes` are those of the present section. A refusal has its number and place, an end its place.
#[derive(Clone, Copy)]
pub struct State {
    pub phase: Phase,
    pub present: Present,
    pub control: Control,
    pub lines: usize,
    pub notes: Notes,
    pub tally: Tally,
    pub number: u32,
    pub place: usize,
}

// What a step answers: more octets are needed; a refusal; or the end, with the message's length, its kept header lines, the octets of its content and
// its kept trailer lines.
#[derive(Clone, Copy)]
pub enum Answer {
    More,
    Refusal {
        number: u32,
        place: usize,
    },
    End {
        length: usize,
        headers: usize,
        content: usize,
        trailers: usize,
    },
}

#[derive(Clone, Copy)]
pub struct Stepped {
    pub state: State,
    pub answer: Answer,
}

// What many steps leave: the state, how many octets were taken, and the last answer.
#[derive(Clone, Copy)]
pub struct Ran {
    pub state: State,
    pub taken: usize,
    pub answer: Answer,
}
