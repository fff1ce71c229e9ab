// Where a tree and its free slots begin in their slice, and its counts. Slots are numbers: the memory is lent, none is from the
// heap.

#[derive(Clone, Copy)]
pub struct Links {
    pub root: Option<usize>,
    pub free: Option<usize>,
    pub count: usize,
    // the greatest count since the whole tree was last rebuilt
    pub most: usize,
}
