// The readers of HTTP/1.1: the first request, the first response of a stream.
#![tactic(auto)]

mod heads;
pub mod request;
pub mod response;

use messages::{Body, Notes, Span};

// A request's head that was judged: where its authority stands and how the content is read.
#[derive(Clone, Copy)]
pub struct JudgedHead {
    pub authority: Span,
    pub body: Body,
}

// A response's head that was read: its status, the place behind it and how many kept fields stand in the lent ranges now; behind an informational
// one, what is left of the allowance; of a final one, what its lines state.
#[derive(Clone, Copy)]
pub enum HeadRead {
    Informational {
        status: u32,
        end: usize,
        left: usize,
        kept: usize,
    },
    Final {
        status: u32,
        end: usize,
        kept: usize,
        notes: Notes,
    },
}

// All heads of a response: the final status, the place behind the final head, how many informational heads there are, how many kept fields the final
// head has and what its lines state.
#[derive(Clone, Copy)]
pub struct HeadsRead {
    pub status: u32,
    pub end: usize,
    pub heads: usize,
    pub kept: usize,
    pub notes: Notes,
}
