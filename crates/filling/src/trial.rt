// One trial: a tree is filled in one order and emptied in another.
use crate::orders::{Filling, Thinning};
use balance::{MOST_ITEMS, allowance};
use nodes::{Element, Node};
use trees::Tree;

// How often all items are looked at: each time the count is a multiple of this.
const EVERY: usize = 64;

// How often a part was rebuilt, and at how many looks an item lay deeper than allowed.
#[derive(Clone, Copy)]
struct Seen {
    rebuilt: usize,
    too_deep: usize,
}

impl Seen {
    fn new() -> Seen {
        Seen {
            rebuilt: 0,
            too_deep: 0,
        }
    }

    fn look<E: Element<Sum = S>, S: Copy>(&mut self, tree: &Tree<'_, E, S>) {
        if tree.count() % EVERY == 0 && deepest(tree) > allowance(tree.most()) {
            self.too_deep = self.too_deep.saturating_add(1);
        }
    }

    fn count(&mut self, rebuilt: bool) {
        self.rebuilt = self.rebuilt.saturating_add(usize::from(rebuilt));
    }
}

// How deep the deepest item lies.
fn deepest<E: Element<Sum = S>, S: Copy>(tree: &Tree<'_, E, S>) -> usize {
    (0..tree.count())
        .filter_map(|place| tree.depth_at(place))
        .max()
        .unwrap_or(0)
}

// How deep a new leaf would lie: below the deeper of its neighbours.
fn leaf_depth<E: Element<Sum = S>, S: Copy>(tree: &Tree<'_, E, S>, place: usize) -> usize {
    let before = place.checked_sub(1).and_then(|p| tree.depth_at(p));
    let after = tree.depth_at(place);
    before.max(after).map_or(0, |depth| depth.saturating_add(1))
}

// Fills the tree. An insertion rebuilds a part where its leaf would lie deeper than allowed.
fn fill<E: Element<Sum = S>, S: Copy, F: Fn(usize) -> E>(
    tree: &mut Tree<'_, E, S>,
    filling: Filling,
    make: F,
) -> Seen
    requires { F.IsAlwaysCallable make }
{
    let mut seen = Seen::new();
    for n in 0..tree.capacity() {
        let place = filling.place(tree.count());
        let most = tree.most().max(tree.count().saturating_add(1));
        seen.count(leaf_depth(tree, place) > allowance(most));
        let _ = tree.insert_at(place, make(n));
        seen.look(tree);
    }
    seen
}

// Empties the tree. A removal that rebuilds the whole of it makes the greatest count less.
fn thin<E: Element<Sum = S> + Drop, S: Copy>(
    tree: &mut Tree<'_, E, S>,
    thinning: Thinning,
) -> Seen {
    let mut seen = Seen::new();
    for _ in 0..tree.count() {
        let most = tree.most();
        let _ = tree.remove_at(thinning.place(tree.count()));
        seen.count(tree.most() < most);
        seen.look(tree);
    }
    seen
}

// Fills a tree and empties it, and prints what was seen.
pub(crate) fn trial<E: Element<Sum = S> + Drop, S: Copy, F: Fn(usize) -> E>(
    rt: &HostRuntime,
    filling: Filling,
    thinning: Thinning,
    make: F,
) -> anyhow::Result<()>
    requires { F.IsAlwaysCallable make }
{
    let empty = Node {
        item: make(0),
        left: None,
        right: None,
        size: 0,
        sum: E::none(),
    };
    let mut nodes = vec![in rt.alloc(); empty; MOST_ITEMS]?;
    let mut tree = Tree::new(&mut nodes);
    let filled = fill(&mut tree, filling, make);
    let (deepest, allowed) = (deepest(&tree), allowance(tree.most()));
    let emptied = thin(&mut tree, thinning);
    let too_deep = filled.too_deep.saturating_add(emptied.too_deep);
    println!(rt;
        "{filling:?}, then {thinning:?}: deepest {deepest} of {allowed}, {} rebuilt; emptied, {} rebuilt; {too_deep} too deep",
        filled.rebuilt, emptied.rebuilt
    )?;
    Ok(())
}
