// Writing one node over two parts.
// Both links are asked for: they lead into one slice, which is written to, so no two parts of a tree can stand for them.
ghost use Rattle.std.specs.Prelude.{◌≡◌, ◌+◌, ◌^◌, ◌<◌, length, slice_set};
ghost use Rattle.nodes.specs.Holding.{Shaped, size_at};
ghost use Rattle.changes.specs.Placed.{Placed};

use nodes::{Element, Node, Part};

// Writing by index, as proofs cite it; the counterpart of `read_at`.
pub fn write_at<T: Copy>(slice: &mut [T], i: usize, value: T)
    requires { i < length slice.old }
    ensures { slice.new ≡ slice_set slice.old i value }
{
    slice[i] = value;
}

// Writes a node with this item over the parts at two links, with its size and summary.
pub fn place<E: Element>(
    nodes: &mut [Node<E, E::Sum>],
    slot: usize,
    item: E,
    left: Option<usize>,
    right: Option<usize>,
)
    requires within { slot < length nodes.old }
    requires left { Shaped E.empty E.whole nodes.old left }
    requires right { Shaped E.empty E.whole nodes.old right }
    requires fits { size_at nodes.old left + size_at nodes.old right + 1 < 2 ^ 64 }
    ensures { Placed E.empty E.whole nodes.old nodes.new slot item left right }
{
    let before = Part::<E> { nodes, link: left };
    let after = Part::<E> { nodes, link: right };
    let size = before.size() + after.size() + 1;
    let sum = E::join(&before.sum(), &item, &after.sum());
    write_at(
        nodes,
        slot,
        Node {
            item,
            left,
            right,
            size,
            sum,
        },
    );
}
