// Worked cases: statements about small volumes, and about every word, that follow from the definitions.
ghost use Rattle.tables.specs.Cases.{Hold, worked};

// The cases hold, all of them.
pub fn worked_cases()
    ensures { Hold worked }
{}
