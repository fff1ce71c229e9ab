// Why an item is not put in.

#[derive(Clone, Copy, PartialEq, Debug)]
pub enum TreeRefusal {
    // the place lies beyond the end
    NoPlace,
    Full,
}
