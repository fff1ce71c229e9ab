// The slots of a part in the order of their items.
ghost use Rattle.std.specs.Prelude.{◌≡◌, ◌≤◌, false, length, take};
ghost use Rattle.nodes.specs.Tree.{Tree, slots, size};
ghost use Rattle.nodes.specs.Holding.{Holds, size_at};

use nodes::{Element, Part};

// Writes the slots of a part in order, and returns how many they are.
pub fn in_order<E: Element>(part: &Part<'_, E>, order: &mut [usize]) -> usize
    requires { size_at part.now.nodes.now part.now.link ≤ length order.old }
    ensures slots { (t : Tree E) → Holds false E.empty E.whole part.now.nodes.now part.now.link t → take result order.new ≡ slots t }
    ensures count { (t : Tree E) → Holds false E.empty E.whole part.now.nodes.now part.now.link t → result ≡ size t }
{
    let count = part.size();
    for (place, entry) in order[..count].iter_mut().enumerate() {
        if let Some(slot) = part.slot_at(place) {
            *entry = slot;
        }
    }
    count
}
