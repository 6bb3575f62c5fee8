//! Summaries of lists of keys with weights, made of those of shorter lists.
ghost use Rattle.std.specs.Prelude.{◌≡◌, ℕ, ◌+◌, ◌^◌, ◌<◌, List, [], ◌++◌, All};
ghost use Rattle.aug_model.specs.Folds.{summary_of};
ghost use Rattle.aug_monoid.specs.Weighted.{FitsPair};

use aug_model::Summary;
use aug_monoid::Monoid;

// The summary of no keys.
pub(crate) fn of_none<A: Monoid, B: Monoid>() -> Summary<A, B>
    ensures { result ≡ summary_of A.parts B.parts [] }
{
    Summary {
        count: 0,
        a: A::unit(),
        b: B::unit(),
    }
}

// The summary of the keys that `low` summarizes and then those that `high` does.
pub(crate) fn joined<A: Monoid, B: Monoid>(low: Summary<A, B>, high: Summary<A, B>) -> Summary<A, B>
    requires { low.count + high.count < 2 ^ 32 }
    ensures { let sum = summary_of A.parts B.parts in
        (xs ys : List (ℕ × ℕ)) → All FitsPair xs → All FitsPair ys → low ≡ sum xs → high ≡ sum ys → result ≡ sum (xs ++ ys) }
{
    Summary {
        count: low.count + high.count,
        a: low.a.join(high.a),
        b: low.b.join(high.b),
    }
}
