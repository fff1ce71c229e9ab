// What a search asks of items and of summaries.
ghost use Rattle.std.specs.Prelude.{◌≡◌};
ghost use Rattle.nodes.specs.Rules.{Rules};

// A probe goes over items from the first on. It may count what it has passed, and tells from a summary whether the part has a hit.
pub trait Probe<E, S>: Copy {
    ghost rules: { Rules Self E S };

    fn hits_item(&self, item: &E) -> bool
        ensures { result ≡ rules.hits self.now item.now };

    fn hits_part(&self, sum: &S) -> bool
        ensures { result ≡ rules.reaches self.now sum.now };

    fn pass_item(&self, item: &E) -> Self
        ensures { result ≡ rules.past self.now item.now };

    fn pass_part(&self, sum: &S) -> Self
        ensures { result ≡ rules.beyond self.now sum.now };
}
