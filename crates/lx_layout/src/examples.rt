//! Worked examples of layouts, of tests of a unit, and of automata that pieces carry.
ghost use Rattle.lx_base.specs.Names.{Spellings};
ghost use Rattle.lx_layout.specs.CarriedExamples.{PiecesCarry};
ghost use Rattle.lx_layout.specs.Examples.{ChecksAreForMore, LayoutsStand, RunsOfDotted, TestsAreFew};

/// The examples of `specs/Examples.antt` are right.
pub fn examples_hold()
    ensures layouts { LayoutsStand }
    ensures runs { RunsOfDotted }
    ensures tests { TestsAreFew }
    ensures checks { ChecksAreForMore }
{}

/// The examples of `specs/CarriedExamples.antt` are right: four pieces carry their automata, whatever their names are, and one of them
/// carries no automaton of another rule.
pub fn pieces_carry_automata()
    ensures { (names : Spellings) → PiecesCarry names }
{}
