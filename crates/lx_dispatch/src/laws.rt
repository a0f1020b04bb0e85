//! What holds of the runs of units. Each law is the contract of a function that does nothing.
ghost use Rattle.std.specs.Prelude.{◌≡◌, ℕ, suc, ◌≤◌, Bool, false, true, not, List, [], length, Option};
ghost use Rattle.lx_auto.specs.Automaton.{AreApart};
ghost use Rattle.lx_auto.specs.declared.automaton.Edge.{Edge};
ghost use Rattle.lx_dispatch.specs.Dispatch.{top_of};
ghost use Rattle.lx_dispatch.specs.LeftUnits.{left_split};
ghost use Rattle.lx_dispatch.specs.Runs.{AreLongestRuns, EachHasUnit, is_read, reader_way, runs_up_to};
ghost use Rattle.lx_dispatch.specs.TestTrees.{split_class};
ghost use Rattle.lx_dispatch.specs.TransitionClasses.{Split};
ghost use Rattle.lx_dispatch.specs.UnitApart.{reader_split};

/// The tests of a state end the longest runs of units that go one way: each run has a unit that is read, neighbours go different ways, and each
/// unit that is read goes as its edge, and the one at the end of the input a way of its own. So there is one test less than there are runs.
pub fn reader_splits_have_the_longest_runs()
    ensures runs { (eof : Option ℕ) (greatest : ℕ) (edges : List Edge) → AreApart edges
        → AreLongestRuns (is_read eof greatest) (top_of eof greatest) (reader_split eof greatest edges) }
    ensures ways { (eof : Option ℕ) (greatest : ℕ) (edges : List Edge) (unit : ℕ) → AreApart edges → is_read eof greatest unit ≡ true
        → split_class (reader_split eof greatest edges) unit ≡ reader_way eof edges unit }
    ensures number { (eof : Option ℕ) (greatest : ℕ) (edges : List Edge) → AreApart edges
        → suc (length (reader_split eof greatest edges).tests) ≡ runs_up_to (is_read eof greatest) (reader_way eof edges) (top_of eof greatest) }
{}

/// The tests that are left end the longest runs of the units on which it is not decided: each run has such a unit, neighbours go different ways,
/// and each such unit goes as before. So there is one test less than there are runs. Where there is no such unit, no test is left.
pub fn left_splits_have_the_longest_runs()
    ensures runs { (counts decided : ℕ → Bool) (top unit : ℕ) (split : Split) → EachHasUnit counts top 0 split.tests → unit ≤ top
        → decided unit ≡ false → AreLongestRuns (λ unit. not (decided unit)) top (left_split decided top split) }
    ensures ways { (counts decided : ℕ → Bool) (top unit : ℕ) (split : Split) → EachHasUnit counts top 0 split.tests → unit ≤ top
        → decided unit ≡ false → split_class (left_split decided top split) unit ≡ split_class split unit }
    ensures number { (counts decided : ℕ → Bool) (top unit : ℕ) (split : Split) → EachHasUnit counts top 0 split.tests → unit ≤ top
        → decided unit ≡ false
        → suc (length (left_split decided top split).tests) ≡ runs_up_to (λ unit. not (decided unit)) (split_class split) top }
    ensures none { (counts decided : ℕ → Bool) (top : ℕ) (split : Split) → EachHasUnit counts top 0 split.tests
        → ((unit : ℕ) → unit ≤ top → decided unit ≡ true) → (left_split decided top split).tests ≡ [] }
{}
