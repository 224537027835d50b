ghost use Rattle.std.specs.Prelude.{◌≡◌, MatchBool};
ghost use Rattle.criteria.specs.Comparison.{Compared};
ghost use Rattle.criteria.specs.Meaning.{Meaning, Order, Joins, Monotone, Best, Tests, Steadiness, Joined};

use crate::comparison::Comparison;

// A way to judge trips: a value for every road, and an order and a join of values.
pub trait Criterion {
    // What a trip is worth.
    type Value: Copy;

    // The order, the join, the unit, the value of a road and the test.
    ghost meaning: { Self → Meaning Self.Value };

    // The mark under which law 3 holds; every criterion promises it.
    ghost lawful: { Self → Type 0 };

    // The mark under which law 5 holds; a steady criterion promises it.
    ghost steady: { Self → Type 0 };

    // Promises that law 3 holds.
    fn promise(&self)
        ensures { lawful self.now };

    // The value of the empty trip.
    fn unit(&self) -> Self::Value
        ensures { result ≡ (meaning self.now).unit };

    // The value of a road with these marks.
    fn read(&self, marks: &[u32; 4]) -> Self::Value
        ensures value { result ≡ (meaning self.now).value marks.now }
        ensures passes { (meaning self.now).passes 1 result };

    // Whether x is better than y, equal or worse.
    fn compare(&self, x: Self::Value, y: Self::Value) -> Comparison
        ensures { Compared (meaning self.now).good x y result };

    // The value of x and then y, where the two pass for j and k with j + k at most 1,048,576; elsewhere any value.
    fn join(&self, x: Self::Value, y: Self::Value) -> Self::Value
        ensures { Joined (meaning self.now) x y result };

    // Whether x passes the test for k roads.
    fn test(&self, x: Self::Value, k: u32) -> bool
        ensures { MatchBool result ((meaning self.now).passes k x) ((meaning self.now).passes k x → ⊥) };

    // Law 1: the order.
    ghost order: { (c : Self) → Order (meaning c) };

    // Law 2: the join.
    ghost joins: { (c : Self) → Joins (meaning c) };

    // Law 3: joining keeps at least as good.
    ghost monotone: { (c : Self) → lawful c → Monotone (meaning c) };

    // Law 4: the unit is best.
    ghost best: { (c : Self) → Best (meaning c) };

    // The values of no road, of one and of two trips joined pass the test.
    ghost tests: { (c : Self) → Tests (meaning c) };

    // Law 5: joining keeps strictly better.
    ghost steadiness: { (c : Self) → steady c → Steadiness (meaning c) };
}

// A criterion by which joining the same value keeps strictly better strictly better.
pub trait Steady: Criterion {
    // Promises that law 5 holds.
    fn promise_steady(&self)
        ensures { Self.Criterion.steady self.now };
}
