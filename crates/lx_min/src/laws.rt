//! What holds of minimization: of lists that do the same, and of automata that are merges of other ones. Each law is the contract of a function that does nothing.
ghost use Rattle.std.specs.Prelude.{◌≡◌, ◌↔◌, ◌<◌, ℕ, List};
ghost use Rattle.lx_auto.specs.Automaton.{IsAuto};
ghost use Rattle.lx_auto.specs.Live.{AllInterfere, EachTargetIsRead};
ghost use Rattle.lx_auto.specs.Points.{IsMet};
ghost use Rattle.lx_auto.specs.SameRun.{HasSameRun};
ghost use Rattle.lx_auto.specs.Shapes.{StaysWithin};
ghost use Rattle.lx_auto.specs.ToldApart.{AllAreToldApart, DoTheSame};
ghost use Rattle.lx_auto.specs.declared.automaton.Auto.{Auto};
ghost use Rattle.lx_auto.specs.declared.ops.Op.{Op};
ghost use Rattle.lx_min.specs.Canonical.{canonical};
ghost use Rattle.lx_min.specs.Merges.{AreClassesApart, Classes, IsMerge};

/// Two lists of operations do the same exactly if they have one canonical list.
pub fn lists_that_do_the_same_have_one_canonical_list()
    ensures { (ops others : List Op) → (canonical ops ≡ canonical others) ↔ DoTheSame ops others }
{}

/// A merge of an automaton runs as the automaton.
pub fn merges_have_the_same_run()
    ensures { (given answer : Auto) (classes : Classes) → IsMerge given answer classes → IsAuto given → HasSameRun answer given }
{}

/// A merge of an automaton stays within the automaton.
pub fn merges_stay_within()
    ensures { (given answer : Auto) (classes : Classes) → IsMerge given answer classes → StaysWithin given answer }
{}

/// Walks come to each state of a merge.
pub fn merges_have_walks_to_each_state()
    ensures { (given answer : Auto) (classes : Classes) (state : ℕ) → IsMerge given answer classes → IsAuto given
        → state < classes.count → IsMet answer state }
{}

/// Where each operation of an automaton is read, each operation of its merge is.
pub fn merges_keep_what_is_read()
    ensures { (given answer : Auto) (classes : Classes) → IsMerge given answer classes → IsAuto given → EachTargetIsRead given
        → EachTargetIsRead answer }
{}

/// Where all registers of an automaton interfere, all registers of its merge do.
pub fn merges_keep_interference()
    ensures { (given answer : Auto) (classes : Classes) → IsMerge given answer classes → IsAuto given → AllInterfere given
        → AllInterfere answer }
{}

/// Where words tell states of different classes apart, words tell the states of the merge apart.
pub fn merges_tell_classes_apart()
    ensures { (given answer : Auto) (classes : Classes) → IsMerge given answer classes → IsAuto given → AreClassesApart given classes
        → AllAreToldApart answer }
{}
