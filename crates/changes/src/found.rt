// A node, with the way to it.
use crate::path::Path;

#[derive(Clone, Copy)]
pub struct Found {
    pub path: Path,
    pub slot: usize,
}
