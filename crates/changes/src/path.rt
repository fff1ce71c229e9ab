// The way from the root of a tree down to one of its parts.
use crate::stack::Stack;

#[derive(Clone, Copy)]
pub enum Side {
    Left,
    Right,
}

// A node on the way, and the side to which the way goes on.
#[derive(Clone, Copy)]
pub struct Step {
    pub slot: usize,
    pub side: Side,
}

// What a path's room holds before its first step.
pub(crate) const NO_STEP: Step = Step {
    slot: 0,
    side: Side::Left,
};

// Room for the longest way: a tree of more than 32 levels is not walked.
pub type Path = Stack<Step, 32>;
