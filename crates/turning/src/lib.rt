// Turning messages from one form into the other: read by the reader of the one form, written by the writer of the other.
#![tactic(auto)]

pub mod from_binary;
pub mod to_binary;
