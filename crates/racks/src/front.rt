// The first n items of a slice: one more, one fewer. What comes in or goes lies just behind them, so n stands beside the slice.
// By rotations, which move the items as one block: a copy within the slice goes item by item, and took half as much time again.
ghost use Rattle.std.specs.Prelude.{◌≡◌, ◌+◌, ◌-◌, ◌<◌, ◌≤◌, ◌∷◌, ◌++◌, length, take, drop};

// Puts x at a place of the first n items, which then are one more.
pub(crate) fn insert_at<T: Copy>(xs: &mut [T], n: usize, place: usize, x: T)
    requires within { place ≤ n }
    requires room { n < length xs.old }
    ensures { take (n + 1) xs.new ≡ take place (take n xs.old) ++ x ∷ drop place (take n xs.old) }
{
    xs[n] = x;
    xs[place..n + 1].rotate_right(1);
}

// Removes the item at a place of the first n items, which then are one fewer.
pub(crate) fn remove_at<T: Copy>(xs: &mut [T], n: usize, place: usize)
    requires within { place < n }
    requires room { n ≤ length xs.old }
    ensures { take (n - 1) xs.new ≡ take place (take n xs.old) ++ drop (place + 1) (take n xs.old) }
{
    xs[place..n].rotate_left(1);
}
