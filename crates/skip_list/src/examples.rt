// Worked cases that follow from the definitions.
ghost use Rattle.std.specs.Prelude.{ℕ};
ghost use Rattle.skip_list.specs.Examples.{LevelCases, LinkCases};

// The levels of some draws, and the links of three keys; it does nothing, and its contract says that they are so.
pub fn worked_cases()
    ensures levels { LevelCases }
    ensures links { (a b c : ℕ) → LinkCases a b c }
{}
