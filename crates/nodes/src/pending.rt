// An item whose part on the open side is still to come, with the summary of the items on its other side.

#[derive(Clone, Copy)]
pub struct Pending<E, S> {
    pub sum: S,
    pub item: E,
}
