//! Laws of results.
ghost use Rattle.program_results.specs.Laws.{AreTheProgramsResults};

/// What is saved and printed after a program is what its result lines say of the state after its lines.
pub fn results_are_the_programs()
    ensures { AreTheProgramsResults }
{}
