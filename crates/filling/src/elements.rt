// Two kinds of element.
ghost use Rattle.std.specs.Prelude.{None, Some, max};
ghost use Rattle.std.specs.Option.{option_or};

use nodes::Element;

// A number; a part keeps its greatest.
#[derive(Clone, Copy, PartialEq)]
pub(crate) struct Number(u32);

impl Number {
    pub(crate) fn new(n: usize) -> Number {
        Number(u32::try_from(n).unwrap_or(u32::MAX))
    }
}

impl Element for Number {
    type Sum = u32;

    ghost empty = { 0 };

    ghost whole = { λ a x b. max (max a x.0) b };

    fn none() -> u32 {
        0
    }

    fn join(before: &u32, item: &Number, after: &u32) -> u32 {
        (*before).max(item.0).max(*after)
    }
}

// A letter of the alphabet; a part keeps its first, if it has one.
#[derive(Clone, Copy, PartialEq)]
pub(crate) struct Letter(u8);

impl Letter {
    pub(crate) fn new(n: usize) -> Letter {
        Letter(b"abcdefghijklmnopqrstuvwxyz"[n % 26])
    }
}

impl Element for Letter {
    type Sum = Option<u8>;

    ghost empty = { None };

    ghost whole = { λ a x b. option_or a (Some x.0) };

    fn none() -> Option<u8> {
        None
    }

    fn join(before: &Option<u8>, item: &Letter, _after: &Option<u8>) -> Option<u8> {
        before.or(Some(item.0))
    }
}

#[cfg(test)]
mod tests {
    use super::*;
    use nodes::Node;
    use std::process::Abort;
    use trees::Tree;

    #[derive(Clone, Copy)]
    enum Call {
        Insert(usize, usize),
        Remove(usize),
        Replace(usize, usize),
    }

    // Calls of a tree with four slots, in order; whether each is accepted, and the list after it.
    const CALLS: [(Call, bool, &[usize]); 11] = [
        (Call::Remove(0), false, &[]),
        (Call::Insert(0, 5), true, &[5]),
        (Call::Insert(1, 7), true, &[5, 7]),
        (Call::Insert(1, 6), true, &[5, 6, 7]),
        (Call::Insert(4, 9), false, &[5, 6, 7]),
        (Call::Insert(0, 4), true, &[4, 5, 6, 7]),
        (Call::Insert(0, 3), false, &[4, 5, 6, 7]),
        (Call::Replace(2, 8), true, &[4, 5, 8, 7]),
        (Call::Remove(1), true, &[4, 8, 7]),
        (Call::Replace(3, 2), false, &[4, 8, 7]),
        (Call::Insert(3, 1), true, &[4, 8, 7, 1]),
    ];

    // A node as memory may hold it before a tree is made.
    fn node<E, S>(item: E, sum: S) -> Node<E, S> {
        Node {
            item,
            left: Some(7),
            right: Some(0),
            size: 9,
            sum,
        }
    }

    // Runs the calls, and tells the summaries of the first item and of the others.
    fn run<E: Element<Sum = S> + PartialEq + Drop, S: Copy, F: Fn(usize) -> E>(
        rt: &impl Abort,
        nodes: &mut [Node<E, S>],
        make: F,
    ) -> (S, S)
        requires { F.IsAlwaysCallable make }
    {
        let mut tree = Tree::new(nodes);
        assert_eq!(rt; tree.capacity(), 4);
        for (call, accepted, list) in CALLS {
            let done = match call {
                Call::Insert(place, n) => tree.insert_at(place, make(n)).is_ok(),
                Call::Remove(place) => tree.remove_at(place).is_some(),
                Call::Replace(place, n) => tree.replace_at(place, make(n)).is_some(),
            };
            assert_eq!(rt; done, accepted);
            assert_eq!(rt; tree.count(), list.len());
            for place in 0..5 {
                let n = list.get(place).copied();
                assert!(rt; tree.at(place) == n.map(|n| make(n)));
                assert_eq!(rt; tree.depth_at(place).is_some(), n.is_some());
            }
        }
        assert_eq!(rt; tree.most(), 4);
        let sums = (tree.sum_before(1), tree.sum_from(1));
        tree.clear();
        assert!(rt; tree.at(0).is_none());
        sums
    }

    #[test]
    fn numbers(rt: HostRuntime) {
        let mut nodes = [node(Number::new(0), 3); 4];
        assert_eq!(rt; run(&rt, &mut nodes, Number::new), (4, 8));
    }

    #[test]
    fn letters(rt: HostRuntime) {
        let mut nodes = [node(Letter::new(25), None); 4];
        assert_eq!(rt; run(&rt, &mut nodes, Letter::new), (Some(b'e'), Some(b'i')));
    }
}
