// Worked sheets, shown from the definitions.
ghost use Rattle.std.specs.Prelude.{◌≡◌, length};
ghost use Rattle.std.specs.List.{AllByRecursion};
ghost use Rattle.sheet.specs.Rows.{Holds, rows};

// How many worked sheets there are; each of them holds.
pub fn worked_sheets() -> usize
    ensures hold { AllByRecursion Holds rows }
    ensures count { result ≡ length rows }
{
    15
}
