//! What holds of the two machines. Each law is the contract of a function that does nothing.
ghost use Rattle.m51_sim.specs.Laws.{FilledHasFill, FlatRunsAgree};
ghost use Rattle.m51_sim.specs.StepLaws.{StepsAreShort};

/// In a sound layout, from each map that has the fill on the cells that no overlaid segment covers, and anything on the
/// others: over the steps that the separate machine performs, the flat machine with the same image and script gives the
/// same entries, and no event; where the separate machine then stops at the reserved opcode or at power-down, the flat
/// machine stops there at the same event. A flat board starts with such a map.
///
/// Source: own choice ("Boards").
pub fn flat_runs_agree()
    ensures agree { FlatRunsAgree }
    ensures filled { FilledHasFill }
{}

/// A step that the separate machine performs takes one to four machine cycles: a vectoring two, an idle step one, and
/// an instruction those of its row in the table.
///
/// Source: family manual.
pub fn steps_are_short()
    ensures { StepsAreShort }
{}
