ghost use Rattle.criteria.specs.Lexical.{lexical_meaning};
ghost use Rattle.criteria.specs.LexicalLaws.{lexical_order, lexical_best, lexical_monotone, lexical_steadiness};
ghost use Rattle.std.proofs.Common.{rules};

use crate::comparison::Comparison;
use crate::criterion::{Criterion, Steady};

// What a trip is worth by Lexical: its value by each part.
#[derive(Clone, Copy, Debug, PartialEq, Eq)]
pub struct LexicalValue<X, Y> {
    pub first: X,
    pub second: Y,
}

// Two criteria as one: the first decides, and the second on a tie.
#[derive(Clone, Copy)]
pub struct Lexical<A, B> {
    pub first: A,
    pub second: B,
}

impl<A: Steady, B: Criterion> Criterion for Lexical<A, B> {
    type Value = LexicalValue<A::Value, B::Value>;

    ghost meaning = { λ l. lexical_meaning (A.Criterion.meaning l.first) (B.Criterion.meaning l.second) };

    ghost lawful = { λ l. A.Criterion.steady l.first × B.Criterion.lawful l.second };

    ghost steady = { λ l. A.Criterion.steady l.first × B.Criterion.steady l.second };

    ghost order = { λ c. lexical_order _ _ (A.Criterion.order c.first) (B.Criterion.order c.second) };

    ghost joins = { Prim.search rules };

    ghost monotone = { λ c (first, second).
        lexical_monotone _ _
        (A.Criterion.steadiness c.first first)
        (B.Criterion.monotone c.second second) };

    ghost best = { λ c.
        lexical_best _ _
        (A.Criterion.order c.first)
        (A.Criterion.best c.first)
        (B.Criterion.best c.second) };

    ghost tests = { Prim.search rules };

    ghost steadiness = { λ c (first, second).
        lexical_steadiness _ _
        (A.Criterion.steadiness c.first first)
        (B.Criterion.steadiness c.second second) };

    fn promise(&self) {
        self.first.promise_steady();
        self.second.promise();
    }

    fn unit(&self) -> Self::Value {
        LexicalValue {
            first: self.first.unit(),
            second: self.second.unit(),
        }
    }

    fn read(&self, marks: &[u32; 4]) -> Self::Value {
        LexicalValue {
            first: self.first.read(marks),
            second: self.second.read(marks),
        }
    }

    fn compare(&self, x: Self::Value, y: Self::Value) -> Comparison {
        // A match: the second part is asked on a tie alone.
        match self.first.compare(x.first, y.first) {
            Comparison::Equal => self.second.compare(x.second, y.second),
            decided => decided,
        }
    }

    fn join(&self, x: Self::Value, y: Self::Value) -> Self::Value {
        LexicalValue {
            first: self.first.join(x.first, y.first),
            second: self.second.join(x.second, y.second),
        }
    }

    fn test(&self, x: Self::Value, k: u32) -> bool {
        self.first.test(x.first, k) && self.second.test(x.second, k)
    }
}

impl<A: Steady, B: Steady> Steady for Lexical<A, B> {
    fn promise_steady(&self) {
        self.first.promise_steady();
        self.second.promise_steady();
    }
}
