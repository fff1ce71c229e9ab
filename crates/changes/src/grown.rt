// A tree that has a new node, with the way to it.
use crate::path::Path;

#[derive(Clone, Copy)]
pub struct Grown {
    pub root: Option<usize>,
    pub path: Path,
}
