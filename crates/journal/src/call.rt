// The calls of a book's life, and the replies to them.
use crate::folder::Folder;

// What a book may be asked: three corrections of its journal, then four questions.
#[derive(Clone, Copy)]
pub enum Call<P> {
    // enter the arrival of this folder
    Arrival(Folder<P>),
    // enter a taking at this stamp
    Taking(u32),
    // strike out the entry at this stamp
    Revoke(u32),
    // how many folders are waiting
    WaitingCount,
    // the folder with exactly so many waiting folders ahead of it
    WaitingAt(usize),
    // what stands at this stamp
    Standing(u32),
    // what stood on the rack at this stamp, into a spare rack
    LookBack(u32),
}

// What stands at a stamp.
#[derive(Clone, Copy, PartialEq)]
pub enum Standing {
    Absent,
    Waiting,
    Fetched,
    Taking,
}

// What a book replies where it does not refuse: its whole reply is a `Result<Reply<P>, Refusal>`.
#[derive(Clone, Copy)]
pub enum Reply<P> {
    // the folder that a correction moved onto the waiting list
    Joined(Folder<P>),
    // the folder that a correction moved off the waiting list
    Left(Folder<P>),
    Count(usize),
    At(Option<Folder<P>>),
    Standing(Standing),
    // what stood is on the spare rack now
    Stood,
}
