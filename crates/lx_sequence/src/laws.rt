//! What holds of sequences. The law is the contract of a function that does nothing.
ghost use Rattle.std.specs.Prelude.{ℕ, List};
ghost use Rattle.lx_auto.specs.declared.ops.Op.{Op};
ghost use Rattle.lx_sequence.specs.ParallelCopies.{sequentialized};
ghost use Rattle.lx_sequence.specs.Turns.{ActsOneByOne};

/// Operations one by one do to all registers but the spares what the list does at once.
pub fn sequences_act_at_once()
    ensures { (spare mspare : ℕ) (ops : List Op) → ActsOneByOne spare mspare (sequentialized spare mspare ops) ops }
{}
