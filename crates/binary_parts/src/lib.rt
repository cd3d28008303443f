// Reading Binary HTTP from one whole input: control data, sections, content, padding.
#![tactic(auto)]

pub mod content;
pub mod control;
pub mod lines;
mod parts;

use binary::Cursor;
use messages::{Kind, Notes, Span};

// A part that was read: the octets behind its length, and the place behind them.
#[derive(Clone, Copy)]
struct PartRead {
    part: Span,
    end: Cursor,
}

// The parts of control data that have a size and a rule of their octets; the path's goes by whether the method is OPTIONS.
#[derive(Clone, Copy)]
enum Ruled {
    Method,
    Authority,
    Path(bool),
}

// A scheme that was read, by its number, and the place behind it.
#[derive(Clone, Copy)]
struct SchemeRead {
    scheme: u32,
    end: Cursor,
}

// The control data of a request that were read, and the place behind them.
#[derive(Clone, Copy)]
pub struct ControlRead {
    pub method: Span,
    pub scheme: u32,
    pub authority: Span,
    pub path: Span,
    pub end: Cursor,
}

// A chunk that was read: where its octets start, how many they are, and how many integers so far are long; or how far the content goes, the length zero
// that ends it included.
#[derive(Clone, Copy)]
enum Chunk {
    Next {
        start: usize,
        len: usize,
        long: usize,
    },
    Last {
        end: Cursor,
    },
}

// Content that was read: the place behind it, how many non-empty chunks it has, how many octets they are.
#[derive(Clone, Copy)]
pub struct ContentRead {
    pub end: Cursor,
    pub chunks: usize,
    pub total: usize,
}

// A section that was read: the place behind it, how many kept fields stand in the lent ranges now, and what its lines state.
#[derive(Clone, Copy)]
pub struct Section {
    pub end: Cursor,
    pub kept: usize,
    pub notes: Notes,
}

// A field line that was read: the index behind it in the part that was lent, the count of kept fields with it, its kind, its place, and the
// size of its value, which ends where the line ends; how many integers so far are long.
#[derive(Clone, Copy)]
struct LineRead {
    end: usize,
    kept: usize,
    kind: Kind,
    place: usize,
    len: usize,
    long: usize,
}
