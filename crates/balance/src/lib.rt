// How deep a tree may be for the greatest count of items that it has had.

#![tactic(auto)]

ghost use Rattle.std.specs.Prelude.{◌≡◌, ◌*◌, ◌^◌, ◌≤◌, min, max};
ghost use Rattle.balance.specs.Allowances.{Allowance, Reaches, most_items, part, whole};

// A child may have at most PART out of WHOLE of the items of its parent.
pub const PART: usize = 2;

pub const WHOLE: usize = 3;

// The greatest count of items of a tree.
pub const MOST_ITEMS: usize = 4096;

// The greatest depth d with WHOLE^d ≤ PART^d × m. No items are allowed as deep a tree as one item, and more than `MOST_ITEMS` as
// deep a one as `MOST_ITEMS`.
pub fn allowance(m: usize) -> usize
    ensures { Allowance part whole (min m most_items) result }
{
    let few = m.min(MOST_ITEMS);
    deeper(few, 0, 1, few.max(1))
}

// The same, where a depth is reached already; `over` and `under` are the two sides at that depth.
fn deeper(m: usize, depth: usize, over: usize, under: usize) -> usize
    requires few { m ≤ most_items }
    requires shallow { depth ≤ 20 }
    requires over { over ≡ whole ^ depth }
    requires under { under ≡ part ^ depth * max 1 m }
    requires reached { Reaches part whole m depth }
    ensures { Allowance part whole m result }
{
    if under * PART < over * WHOLE {
        return depth;
    }
    deeper(m, depth + 1, over * WHOLE, under * PART)
}

#[cfg(test)]
mod tests {
    use super::*;

    // Counts, and their allowances worked out by hand from the two powers.
    const ALLOWANCES: [(usize, usize); 8] = [
        (0, 0),
        (1, 0),
        (2, 1),
        (3, 2),
        (3_325, 19),
        (3_326, 20),
        (4_096, 20),
        (usize::MAX, 20),
    ];

    #[test]
    fn allowances(rt: HostRuntime) {
        for (m, depth) in ALLOWANCES {
            assert_eq!(rt; allowance(m), depth);
        }
    }
}
