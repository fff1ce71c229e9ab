// A tree that has lost a node: its root, the item that was taken out, and the slot that is free.

#[derive(Clone, Copy)]
pub struct Removed<E> {
    pub root: Option<usize>,
    pub item: E,
    pub slot: usize,
}
