// A part that a search has come by, to come back to.
ghost use Rattle.std.specs.Prelude.{◌+◌, ◌^◌, ◌<◌};
ghost use Rattle.nodes.specs.Holding.{size_at};

use crate::element::Element;
use crate::part::Part;

// `probe` has passed what lies before the part, and `place` is the place of its first item.
#[derive(Drop)]
pub struct Mark<'a, E: Element, P> {
    pub part: Part<'a, E>,
    pub probe: P,
    pub place: usize,
    ghost room: { place + size_at part.nodes.now part.link < 2 ^ 64 },
}
