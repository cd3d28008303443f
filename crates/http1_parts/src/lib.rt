// Reading HTTP/1.1 from a stream: sections, chunks, requests and responses.
#![tactic(auto)]

pub mod content;
pub mod lines;

use messages::{Kind, Notes, Span};

// A section that was read: the place behind it, what is left of its allowance, how many kept fields stand in the lent ranges now, and what its
// lines state.
#[derive(Clone, Copy)]
pub struct Section {
    pub end: usize,
    pub left: usize,
    pub kept: usize,
    pub notes: Notes,
}

// A field line that was taken: its kind, and the count of kept fields with it.
#[derive(Clone, Copy)]
pub struct LineRead {
    pub kind: Kind,
    pub kept: usize,
}

// A chunk that was read: where its data lie; or the end of the last chunk line, which has size zero.
#[derive(Clone, Copy)]
pub enum ChunkRead {
    Next(Span),
    Last { end: usize },
}

// Content that was read: the place behind it, how many non-empty chunks it has, how many octets they are, and how many kept trailers.
#[derive(Clone, Copy)]
pub struct ContentRead {
    pub end: usize,
    pub chunks: usize,
    pub total: usize,
    pub trailers: usize,
}
