// A tree that has changed at one item, and the item that was there.

#[derive(Clone, Copy)]
pub struct Changed<E> {
    pub root: Option<usize>,
    pub item: E,
}
