// What a tree has to know of the elements that it holds.
ghost use Rattle.std.specs.Prelude.{◌≡◌};

// An element names the summary that is kept for each part of a tree. Nothing compares two elements.
pub trait Element: Copy {
    type Sum: Copy;

    // The summary of no elements.
    ghost empty: { Self.Sum };

    // The summary of a whole, from that of the part before an item, the item, and that of the part after it.
    ghost whole: { Self.Sum → Self → Self.Sum → Self.Sum };

    fn none() -> Self::Sum
        ensures { result ≡ empty };

    fn join(before: &Self::Sum, item: &Self, after: &Self::Sum) -> Self::Sum
        ensures { result ≡ whole before.now item.now after.now };
}
