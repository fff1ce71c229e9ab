// The slots that the tree does not use, in a chain by their left links.
ghost use Rattle.std.specs.Prelude.{◌≡◌, ℕ, ◌<◌, List, ◌∷◌, length, ◌≢◌};
ghost use Rattle.std.specs.List.{slice_get};
ghost use Rattle.changes.specs.Chains.{Chain, count, AllFree};

use crate::place::write_at;
use nodes::Node;
use nodes::read::read_at;

// Puts a slot at the head of the chain.
pub fn release<E: Copy, S: Copy>(
    nodes: &mut [Node<E, S>],
    slot: usize,
    free: Option<usize>,
) -> Option<usize>
    requires { slot < length nodes.old }
    ensures chain { (spare : List ℕ) → Chain nodes.old free spare → count slot spare ≡ 0 → Chain nodes.new result (slot ∷ spare) }
    ensures kept { (k : ℕ) → (k ≢ slot) → slice_get nodes.new k ≡ slice_get nodes.old k }
{
    let node = read_at(nodes, slot);
    write_at(
        nodes,
        slot,
        Node {
            item: node.item,
            left: free,
            right: None,
            size: 0,
            sum: node.sum,
        },
    );
    Some(slot)
}

// Makes every slot free, whatever the memory held. The loop goes over numbers, since it is the slots' numbers that are chained.
pub fn release_all<E: Copy, S: Copy>(nodes: &mut [Node<E, S>]) -> Option<usize>
    ensures { AllFree nodes.new result }
{
    let mut free = None;
    for i in 0..nodes.len() {
        free = release(nodes, i, free);
    }
    free
}
