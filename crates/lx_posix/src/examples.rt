//! The worked examples, which hold by computation.
ghost use Rattle.lx_posix.specs.Examples.{EmptyIterationIsFirst, LongerMemberIsFirst, split_word, twice_letters};
ghost use Rattle.lx_regex.specs.Tree.{Tree};

/// The examples of `specs/Examples.antt` are right.
pub fn examples_hold()
    ensures members { (long short : Tree split_word) × LongerMemberIsFirst long short }
    ensures iterations { (with_empty without : Tree twice_letters) × EmptyIterationIsFirst with_empty without }
{}
