/// The number of some keys, and their folds in two monoids, in rising key order.
#[derive(Clone, Copy, PartialEq, Eq, Debug)]
pub struct Summary<A, B> {
    /// How many keys there are.
    pub count: u32,
    /// The fold of the keys in the first monoid.
    pub a: A,
    /// The fold of the keys in the second monoid.
    pub b: B,
}
