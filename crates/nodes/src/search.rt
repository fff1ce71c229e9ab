// Searches by probe: down one path, remembering the nearest part that has a hit on the far side, and then down there.
// That a probe is lawful is a premise of what they promise: a type that kept it would ask it of every caller.
ghost use Rattle.std.specs.Prelude.{◌≡◌, ◌+◌, true, ◌||◌, take, drop};
ghost use Rattle.nodes.specs.Tree.{Tree, items, size, summary, before_of, onward, up_to};
ghost use Rattle.nodes.specs.Holding.{Holds};
ghost use Rattle.nodes.specs.Hits.{passed, first_in, last_in, rank_in, Lawful};

use crate::element::Element;
use crate::mark::Mark;
use crate::part::{Fork, Part};
use crate::probe::Probe;

impl<'a, E: Element, P: Probe<E, E::Sum>> Mark<'a, E, P> {
    // The first hit in the part.
    fn first(&self) -> Option<usize>
        ensures { (t : Tree E) → Holds true E.empty E.whole self.now.part.nodes.now self.now.part.link t → Lawful E.empty E.whole P.rules self.now.probe (items t) → result ≡ first_in P.rules self.now.probe self.now.place (items t) }
    {
        let mut part = self.part.again();
        let mut probe = self.probe;
        let mut place = self.place;
        while let Some(fork) = part.open() {
            let sum = fork.left.sum();
            if probe.hits_part(&sum) {
                part = fork.left;
            } else {
                let at = place + fork.left.size();
                let here = probe.pass_part(&sum);
                if here.hits_item(&fork.node.item) {
                    return Some(at);
                }
                part = fork.right;
                probe = here.pass_item(&fork.node.item);
                place = at + 1;
            }
        }
        None
    }

    // The last hit in the part.
    fn last(&self) -> Option<usize>
        ensures { (t : Tree E) → Holds true E.empty E.whole self.now.part.nodes.now self.now.part.link t → Lawful E.empty E.whole P.rules self.now.probe (items t) → result ≡ last_in P.rules self.now.probe self.now.place (items t) }
    {
        let mut part = self.part.again();
        let mut probe = self.probe;
        let mut place = self.place;
        while let Some(fork) = part.open() {
            let at = place + fork.left.size();
            let here = probe.pass_part(&fork.left.sum());
            let next = here.pass_item(&fork.node.item);
            if next.hits_part(&fork.right.sum()) {
                part = fork.right;
                probe = next;
                place = at + 1;
            } else {
                if here.hits_item(&fork.node.item) {
                    return Some(at);
                }
                part = fork.left;
            }
        }
        None
    }

    // The first hit at the root's item or after it.
    fn first_onward(&self) -> Option<usize>
        ensures { (t : Tree E) → Holds true E.empty E.whole self.now.part.nodes.now self.now.part.link t → Lawful E.empty E.whole P.rules self.now.probe (items t) → result ≡ first_in P.rules (passed P.rules self.now.probe (items (before_of t))) (self.now.place + size (before_of t)) (onward t) }
    {
        let fork = self.part.open()?;
        let at = self.place + fork.left.size();
        let here = self.probe.pass_part(&fork.left.sum());
        if here.hits_item(&fork.node.item) {
            return Some(at);
        }
        let later = Mark {
            part: fork.right,
            probe: here.pass_item(&fork.node.item),
            place: at + 1,
        };
        later.first()
    }

    // The last hit at the root's item or before it.
    fn last_back(&self) -> Option<usize>
        ensures { (t : Tree E) → Holds true E.empty E.whole self.now.part.nodes.now self.now.part.link t → Lawful E.empty E.whole P.rules self.now.probe (items t) → result ≡ last_in P.rules self.now.probe self.now.place (up_to t) }
    {
        let fork = self.part.open()?;
        let at = self.place + fork.left.size();
        let here = self.probe.pass_part(&fork.left.sum());
        if here.hits_item(&fork.node.item) {
            return Some(at);
        }
        let earlier = Mark {
            part: fork.left,
            probe: self.probe,
            place: self.place,
        };
        earlier.last()
    }
}

impl<'a, E: Element> Fork<'a, E> {
    // Whether the item or the part after it has a hit, for a probe that has passed the part before.
    fn hits_onward<P: Probe<E, E::Sum>>(&self, here: &P) -> bool
        ensures { (t : Tree E) → Holds true E.empty E.whole self.now.right.nodes.now self.now.right.link t → result ≡ (P.rules.hits here.now self.now.node.item || P.rules.reaches (P.rules.past here.now self.now.node.item) (summary E.empty E.whole t)) }
    {
        if here.hits_item(&self.node.item) {
            return true;
        }
        here.pass_item(&self.node.item).hits_part(&self.right.sum())
    }
}

// Whether the part before an item or the item has a hit; `here` has passed that part.
fn hits_back<E, S, P: Probe<E, S>>(probe: &P, part: &S, here: &P, item: &E) -> bool
    ensures { result ≡ (P.rules.reaches probe.now part.now || P.rules.hits here.now item.now) }
{
    probe.hits_part(part) || here.hits_item(item)
}

impl<'a, E: Element> Part<'a, E> {
    // The first place from `from` on at which the probe hits, where `start` has passed nothing.
    pub fn first_hit<P: Probe<E, E::Sum>>(&self, start: P, from: usize) -> Option<usize>
        ensures { (t : Tree E) → Holds true E.empty E.whole self.now.nodes.now self.now.link t → Lawful E.empty E.whole P.rules start (items t) → result ≡ first_in P.rules (passed P.rules start (take from (items t))) from (drop from (items t)) }
    {
        let mut part = self.again();
        let mut rest = from;
        let mut probe = start;
        let mut place = 0;
        let mut best = None;
        while let Some(fork) = part.open() {
            let before = fork.left.size();
            let here = probe.pass_part(&fork.left.sum());
            if before < rest {
                part = fork.right;
                rest = rest - before - 1;
                probe = here.pass_item(&fork.node.item);
                place = place + before + 1;
            } else {
                if fork.hits_onward::<P>(&here) {
                    best = Some(Mark { part, probe, place });
                }
                part = fork.left;
            }
        }
        best?.first_onward()
    }

    // The last of the first `count` places at which the probe hits, where `start` has passed nothing.
    pub fn last_hit<P: Probe<E, E::Sum>>(&self, start: P, count: usize) -> Option<usize>
        ensures { (t : Tree E) → Holds true E.empty E.whole self.now.nodes.now self.now.link t → Lawful E.empty E.whole P.rules start (items t) → result ≡ last_in P.rules start 0 (take count (items t)) }
    {
        let mut part = self.again();
        let mut rest = count;
        let mut probe = start;
        let mut place = 0;
        let mut best = None;
        while let Some(fork) = part.open() {
            let before = fork.left.size();
            let sum = fork.left.sum();
            let here = probe.pass_part(&sum);
            if before < rest {
                if hits_back::<E, E::Sum, P>(&probe, &sum, &here, &fork.node.item) {
                    best = Some(Mark { part, probe, place });
                }
                part = fork.right;
                rest = rest - before - 1;
                probe = here.pass_item(&fork.node.item);
                place = place + before + 1;
            } else {
                part = fork.left;
            }
        }
        best?.last_back()
    }

    // How many items stand before the first hit, and the item there; all, and none, where there is no hit.
    pub fn rank<P: Probe<E, E::Sum>>(&self, probe: P) -> (usize, Option<E>)
        ensures { (t : Tree E) → Holds true E.empty E.whole self.now.nodes.now self.now.link t → Lawful E.empty E.whole P.rules probe (items t) → result ≡ rank_in P.rules probe (items t) }
    {
        // No `unwrap_or`: where nothing hits, a walk to the place past the end would find no item.
        match self.first_hit(probe, 0) {
            Some(place) => (place, self.item_at(place)),
            None => (self.size(), None),
        }
    }
}
