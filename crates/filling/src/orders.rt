// The orders in which items come in, and those in which they go.

// Where the next item comes in.
#[derive(Clone, Copy, Debug)]
pub(crate) enum Filling {
    Rising,
    Falling,
    ZigZag,
}

pub(crate) const FILLINGS: [Filling; 3] = [Filling::Rising, Filling::Falling, Filling::ZigZag];

impl Filling {
    // The place for an item where so many are there. In zig-zag each comes in between the last two.
    pub(crate) fn place(&self, count: usize) -> usize {
        match *self {
            Filling::Rising => count,
            Filling::Falling => 0,
            Filling::ZigZag => count.div_ceil(2),
        }
    }
}

// Which item goes next.
#[derive(Clone, Copy, Debug)]
pub(crate) enum Thinning {
    Front,
    Back,
    Middle,
}

pub(crate) const THINNINGS: [Thinning; 3] = [Thinning::Front, Thinning::Back, Thinning::Middle];

impl Thinning {
    // The place of the item to go where so many are there.
    pub(crate) fn place(&self, count: usize) -> usize {
        match *self {
            Thinning::Front => 0,
            Thinning::Back => count.saturating_sub(1),
            Thinning::Middle => count / 2,
        }
    }
}
