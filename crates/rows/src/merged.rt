// One value for two that may be missing.
ghost use Rattle.std.specs.Prelude.{◌≡◌, MatchOption, Some};

// The one that is chosen of two, or the one that there is.
pub(crate) fn merged<T: Copy, F: FnOnce(T, T) -> T>(
    a: Option<T>,
    b: Option<T>,
    choose: F,
) -> Option<T>
    requires { F.IsAlwaysCallable choose }
    ensures { MatchOption a (result ≡ b) (λ x. MatchOption b (result ≡ Some x) (λ y. (z : T) × F.post choose x y z × (result ≡ Some z))) }
{
    match (a, b) {
        (Some(x), Some(y)) => Some(choose(x, y)),
        (a, b) => a.or(b),
    }
}
