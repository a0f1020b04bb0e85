//! Worked examples of operations one by one.
ghost use Rattle.lx_sequence.specs.SequenceExamples.{CyclesTakeTheSpare, SequencesAreShort, SwapsNeedTheSpare};

/// The examples of `specs/SequenceExamples.antt` are right.
pub fn examples_hold()
    ensures sequences { SequencesAreShort }
    ensures cycles { CyclesTakeTheSpare }
    ensures swaps { SwapsNeedTheSpare }
{}
