// The worked examples, and the budgets of a pair.
ghost use Rattle.std.specs.Prelude.{◌≡◌, length};
ghost use Rattle.std.specs.List.{AllByRecursion};
ghost use Rattle.edges.specs.Parts.{PartOfItself, PartsOfPair};
ghost use Rattle.edges.specs.Rows.{Holds, rows};

use kinds::{Kind, Pair, worked_examples};

// How many worked examples there are; each of them holds.
pub fn examples() -> usize
    ensures hold { AllByRecursion Holds rows }
    ensures count { result ≡ length rows }
{
    worked_examples() + 2
}

// Two kinds joined.
pub fn joined<A: Kind, B: Kind>(first: A, second: B) -> Pair<A, B>
    ensures pair { (result.first ≡ first) × (result.second ≡ second) }
    ensures itself { PartOfItself }
    ensures parts { PartsOfPair A.Kind.model B.Kind.model }
{
    Pair { first, second }
}
