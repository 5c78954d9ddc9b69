// The sample rows as one theorem. The program `rows` runs the same inputs.
ghost use Rattle.verdict.specs.Rows.{Rows};

/// For each sample input the contract can be met, and only by the expected answer.
pub fn rows_hold()
    ensures { Rows }
{}
