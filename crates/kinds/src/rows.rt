// Worked examples, shown from the definitions.
ghost use Rattle.std.specs.Prelude.{◌≡◌, length};
ghost use Rattle.std.specs.List.{AllByRecursion};
ghost use Rattle.kinds.specs.Rows.{Holds, rows};

// How many worked examples there are; each of them holds.
pub fn worked_examples() -> usize
    ensures hold { AllByRecursion Holds rows }
    ensures count { result ≡ length rows }
{
    12
}
