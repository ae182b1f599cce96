// Eight worked cases, proved together from the definitions that the contracts of the crates below cite.
#![tactic(auto)]

ghost use Rattle.worked.specs.Cases.{WorkedCases};

// It does nothing: its contract says that the cases hold, those of an ordered set for keys of every type K.
pub fn worked_cases<K>()
    ensures { WorkedCases K }
{}
