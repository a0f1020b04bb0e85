//! What holds of the passes. The law is the contract of a function that does nothing.
ghost use Rattle.lx_auto.specs.Shapes.{StaysWithin};
ghost use Rattle.lx_auto.specs.declared.automaton.Auto.{Auto};
ghost use Rattle.lx_regs.specs.Shapes.{KeepsShape};

/// An automaton that keeps the shape of a given one has edges on its units alone, and accepts like its own.
pub fn what_keeps_shape_stays_within()
    ensures { (given answer : Auto) → KeepsShape given answer → StaysWithin given answer }
{}
