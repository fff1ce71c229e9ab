// A tree that has a new item: its root, and whether the whole of it was rebuilt. Both say something in either case, so the
// yes or no makes no `Option` or `Result` of the root.

#[derive(Clone, Copy)]
pub struct Balanced {
    pub root: Option<usize>,
    pub whole: bool,
}
