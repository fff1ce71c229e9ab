// A tree that has lost an item: its root, the item, the slot that is free, and whether the whole of it was rebuilt. All say
// something in either case, so the yes or no makes no `Option` or `Result` of them.

#[derive(Clone, Copy)]
pub struct Shrunk<E> {
    pub root: Option<usize>,
    pub item: E,
    pub slot: usize,
    pub whole: bool,
}
