// The summary of the first items, and of the items from a place on.
ghost use Rattle.std.specs.Prelude.{◌≡◌, true, List, ◌++◌, take, drop};
ghost use Rattle.nodes.specs.Tree.{Tree, items, summary};
ghost use Rattle.nodes.specs.Holding.{Holds};
ghost use Rattle.nodes.specs.Summaries.{Summarizes, Ends, Begins};

use crate::element::Element;
use crate::part::Part;
use crate::pending::Pending;

// The summary of what was passed and then a part. A `match` here and below: through the closure of a `map_or` the proof was not
// found.
fn then_part<E: Element>(passed: Option<Pending<E, E::Sum>>, part: &E::Sum) -> E::Sum
    ensures { (done : List E) (t : Tree E) → Ends E.empty E.whole done passed → summary E.empty E.whole t ≡ part.now → Summarizes E.empty E.whole (done ++ items t) result }
{
    match passed {
        None => *part,
        Some(p) => E::join(&p.sum, &p.item, part),
    }
}

// The summary of a part and then what was passed.
fn part_then<E: Element>(part: &E::Sum, passed: Option<Pending<E, E::Sum>>) -> E::Sum
    ensures { (done : List E) (t : Tree E) → Begins E.empty E.whole done passed → summary E.empty E.whole t ≡ part.now → Summarizes E.empty E.whole (items t ++ done) result }
{
    match passed {
        None => *part,
        Some(p) => E::join(part, &p.item, &p.sum),
    }
}

impl<'a, E: Element> Part<'a, E> {
    // The summary of the first `count` items, or of all where there are fewer.
    pub fn sum_before(&self, count: usize) -> E::Sum
        ensures { (t : Tree E) → Holds true E.empty E.whole self.now.nodes.now self.now.link t → Summarizes E.empty E.whole (take count (items t)) result }
    {
        let mut part = self.again();
        let mut rest = count;
        let mut passed = None;
        while let Some(fork) = part.open() {
            let before = fork.left.size();
            if rest <= before {
                part = fork.left;
            } else {
                let sum = then_part::<E>(passed, &fork.left.sum());
                passed = Some(Pending {
                    sum,
                    item: fork.node.item,
                });
                part = fork.right;
                rest = rest - before - 1;
            }
        }
        then_part::<E>(passed, &E::none())
    }

    // The summary of the items from a place on, or of none where there are none.
    pub fn sum_from(&self, place: usize) -> E::Sum
        ensures { (t : Tree E) → Holds true E.empty E.whole self.now.nodes.now self.now.link t → Summarizes E.empty E.whole (drop place (items t)) result }
    {
        let mut part = self.again();
        let mut rest = place;
        let mut passed = None;
        while let Some(fork) = part.open() {
            let before = fork.left.size();
            if rest <= before {
                let sum = part_then::<E>(&fork.right.sum(), passed);
                passed = Some(Pending {
                    sum,
                    item: fork.node.item,
                });
                part = fork.left;
            } else {
                part = fork.right;
                rest = rest - before - 1;
            }
        }
        part_then::<E>(&E::none(), passed)
    }
}
