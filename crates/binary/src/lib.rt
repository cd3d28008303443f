// Reading Binary HTTP (RFC 9292, and the draft of 2021).

// What the sections of a message are like, and what its edition allows: whether lengths are known; whether a value may be empty, whether padding may
// follow, whether the message may end before its final header section.
#![tactic(auto)]

#[derive(Clone, Copy)]
pub struct Form {
    pub known: bool,
    pub empty: bool,
    pub padded: bool,
    pub headless: bool,
}

// How far a reader has come: a place, and how many integers before it are not in their shortest form.
#[derive(Clone, Copy)]
pub struct Cursor {
    pub at: usize,
    pub long: usize,
}
