// The night's bundle: its reader, and the list of one flock. Here and nowhere else: what an entry's head says and when its message is in form.
#![tactic(auto)]

pub mod entry; // entry.rt: one entry: its head, its message
pub mod list; // list.rt: the list of one flock
pub mod reader; // reader.rt: the walk over a bundle

// The parts of a head, a number of 32 bits: one flock, one kind, the mark of delivery; lengths are below one kind.
#[derive(Clone, Copy)]
pub struct Head;

impl Head {
    pub const FLOCK: u32 = 33554432;

    pub const KIND: u32 = 4194304;

    pub const DELIVERED: u32 = 16777216;
}

// What stands at a place of a bundle: an entry by its head, the end of the octets, or what stops the walk, by its number.
#[derive(Clone, Copy)]
pub enum Next {
    Entry { word: u32 },
    End,
    Stop { number: u32 },
}

// A walk over a bundle: how many entries there are, where it ends and what stopped it (0: nothing), and head, start and length of each entry.
#[derive(Clone, Copy)]
pub struct Bundle {
    pub count: usize,
    pub end: usize,
    pub number: u32,
    pub numbers: [u32; 768],
}
