// Lines that come one octet at a step: what an octet says of its line, and what lent room keeps of the lines of a head.
// Here and nowhere else: how kept names and values stand in the room. Nothing here knows of a whole request.
#![tactic(auto)]

pub mod octet; // octet.rt: one octet of a line
pub mod room; // room.rt: what is kept of a line, moved down in the room
pub mod names; // names.rt: the kept names, counted

// What an octet says of the line that it belongs to: the line goes on, and what is known of it; it is whole; its ending is wrong; it is too long.
#[derive(Clone, Copy)]
pub enum LineStep {
    Goes(u32),
    Whole,
    Bad,
    Long,
}

// The word that is read: it began at the place `at`, has `left` octets at most, and `have` of them are in. Of a line `cr` is what is known of
// its CR, and its octets stand in the room from `from` on.
#[derive(Clone, Copy)]
pub struct Present {
    pub at: usize,
    pub have: usize,
    pub left: usize,
    pub cr: u32,
    pub from: usize,
}
