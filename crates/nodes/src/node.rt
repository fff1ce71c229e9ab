// A node of a tree, as it lies in the slice.

// Links are places in a lent slice, and no boxes, since nothing here takes memory from the heap. `size` counts the nodes of the
// part below and `sum` summarizes its items, this one included.
#[derive(Clone, Copy)]
pub struct Node<E, S> {
    pub item: E,
    pub left: Option<usize>,
    pub right: Option<usize>,
    pub size: usize,
    pub sum: S,
}
