//! What holds of the scanner of a layout with a supply of units, wherever it stands in a piece. Each law is the contract of a function that
//! does nothing.
ghost use Rattle.std.specs.Prelude.{◌≡◌, ◌≢◌, ◌⊎◌, ℕ, ◌<◌, List, Option, None, Some, length, slice_index, IsSome};
ghost use Rattle.lx_auto.specs.Automaton.{IsAuto, state_of};
ghost use Rattle.lx_auto.specs.declared.automaton.Accept.{Accept};
ghost use Rattle.lx_auto.specs.declared.automaton.Auto.{Auto};
ghost use Rattle.lx_ccode.specs.States.{states_from};
ghost use Rattle.lx_ccode.specs.Statements.{code_of};
ghost use Rattle.lx_ccode.specs.Validity.{AreOnce};
ghost use Rattle.lx_ccode.specs.declared.piece.Piece.{Piece};
ghost use Rattle.lx_fill.specs.Checks.{AreChecks};
ghost use Rattle.lx_layout.specs.CheckedStates.{ChecksAs, ChecksByWalks};
ghost use Rattle.lx_layout.specs.EndedRules.{EndsRules};
ghost use Rattle.lx_layout.specs.Endings.{Ending};
ghost use Rattle.lx_layout.specs.FewTests.{HasFewTests};
ghost use Rattle.lx_layout.specs.Halting.{AreHalting, Halting};
ghost use Rattle.lx_layout.specs.Layout.{StandsFrom};
ghost use Rattle.lx_layout.specs.Parts.{checked};
ghost use Rattle.lx_layout.specs.SuppliedLayout as layouts;
ghost use Rattle.lx_layout.specs.SuppliedLayout.{EachReader, supplied_layout};
ghost use Rattle.lx_layout.specs.Supplies.{Reader, Supply};
ghost use Rattle.lx_base.specs.declared.settings.Format.{Format};
ghost use Rattle.lx_dispatch.specs.Dispatch.{AreTestsOf, TestsWithin};
ghost use Rattle.lx_dispatch.specs.TestTrees.{TestTree};

/// A layout whose supply has no unit at the end checks for units as its supply says, at the blocks of states with edges alone. Where the
/// supply has the numbers of walks, each check is for as many units as some walk reads before it stops or comes to the next check. So it is
/// where state 0 has no number and all others check for one unit, since no match comes to these.
pub fn layouts_check_by_states()
    ensures states { (piece : Piece) (supply : Supply) (halting : Halting) (endings : ℕ → Ending) (end_rule : Option ℕ) (greatest room : ℕ)
        (trees : Reader → TestTree (Option ℕ)) (auto : Auto) (begin : ℕ) → IsAuto auto → EachReader (TestsWithin room greatest) supply.eof greatest trees auto
        → (IsSome end_rule → IsSome supply.eof) → supply.eof ≡ None
        → StandsFrom (code_of piece.blocks) begin (supplied_layout supply halting endings end_rule trees auto begin)
        → AreHalting supply.eof end_rule greatest auto halting → (supply.stored ≡ None) ⊎ AreOnce (states_from 0 piece.blocks)
        → ChecksAs piece (layouts.entry_of supply halting end_rule trees auto begin) (layouts.place_of supply halting end_rule trees auto begin) auto
        supply.check }
    ensures walks { (piece : Piece) (supply : Supply) (halting : Halting) (endings : ℕ → Ending) (end_rule : Option ℕ) (greatest room : ℕ)
        (trees : Reader → TestTree (Option ℕ)) (auto : Auto) (begin : ℕ) → IsAuto auto → EachReader (TestsWithin room greatest) supply.eof greatest trees auto
        → (IsSome end_rule → IsSome supply.eof) → supply.eof ≡ None
        → StandsFrom (code_of piece.blocks) begin (supplied_layout supply halting endings end_rule trees auto begin)
        → AreHalting supply.eof end_rule greatest auto halting → (supply.stored ≡ None) ⊎ AreOnce (states_from 0 piece.blocks)
        → (checks : List ℕ) → AreChecks auto checks → ((state : ℕ) → supply.check state ≡ slice_index checks state)
        → ChecksByWalks piece (layouts.entry_of supply halting end_rule trees auto begin) (layouts.place_of supply halting end_rule trees auto begin) auto
        checks }
    ensures starts { (piece : Piece) (supply : Supply) (halting : Halting) (endings : ℕ → Ending) (end_rule : Option ℕ) (greatest room : ℕ)
        (trees : Reader → TestTree (Option ℕ)) (auto : Auto) (begin : ℕ) → IsAuto auto → EachReader (TestsWithin room greatest) supply.eof greatest trees auto
        → (IsSome end_rule → IsSome supply.eof) → supply.eof ≡ None
        → StandsFrom (code_of piece.blocks) begin (supplied_layout supply halting endings end_rule trees auto begin)
        → AreHalting supply.eof end_rule greatest auto halting → (supply.stored ≡ None) ⊎ AreOnce (states_from 0 piece.blocks)
        → (checks : List ℕ) → AreChecks auto checks → ((state : ℕ) → supply.check state ≡ checked checks state)
        → ChecksByWalks piece (layouts.entry_of supply halting end_rule trees auto begin) (layouts.place_of supply halting end_rule trees auto begin) auto
        checks }
{}

/// In the scanner of a layout each rule ends in at most one block, which gives the rule's values; and no other block gives any. The rule at
/// the end of the input, if there is one, is not to be that of an accept.
pub fn layouts_end_rules_once()
    ensures { (piece : Piece) (supply : Supply) (halting : Halting) (endings : ℕ → Ending) (end_rule : Option ℕ) (greatest room : ℕ)
        (trees : Reader → TestTree (Option ℕ)) (auto : Auto) (begin : ℕ) → IsAuto auto → EachReader (TestsWithin room greatest) supply.eof greatest trees auto
        → AreHalting supply.eof end_rule greatest auto halting
        → StandsFrom (code_of piece.blocks) begin (supplied_layout supply halting endings end_rule trees auto begin)
        → (supply.stored ≡ None) ⊎ AreOnce (states_from 0 piece.blocks)
        → ((rule state : ℕ) (accept : Accept) → end_rule ≡ Some rule → state < length auto.states
        → (state_of auto.states state).accept ≡ Some accept → accept.rule ≢ rule)
        → EndsRules piece (layouts.entry_of supply halting end_rule trees auto begin) endings }
{}

/// A layout by trees of tests within their bound tests each unit few times: from the entry and from the block of each state with an edge
/// no unit is tested before one is read. One that is read there is tested in format 2 no more often than the number of the runs of units
/// that go one way in the state has binary digits. In format 3 it is asked at most five times whether it is one unit or in a set, and
/// tested by other statements no more often than the number of the runs that these questions leave has binary digits. That is so on whatever
/// stream, machine and answers. The machine is to have stored no state but those that the scanner stores.
pub fn layouts_test_few_times()
    ensures { (piece : Piece) (format : Format) (supply : Supply) (halting : Halting) (endings : ℕ → Ending) (end_rule : Option ℕ) (greatest : ℕ)
        (trees : Reader → TestTree (Option ℕ)) (auto : Auto) (begin : ℕ) → IsAuto auto
        → EachReader (AreTestsOf format piece.table supply.eof greatest) supply.eof greatest trees auto
        → (IsSome end_rule → IsSome supply.eof) → AreHalting supply.eof end_rule greatest auto halting
        → StandsFrom (code_of piece.blocks) begin (supplied_layout supply halting endings end_rule trees auto begin)
        → (supply.stored ≡ None) ⊎ AreOnce (states_from 0 piece.blocks)
        → HasFewTests piece (layouts.entry_of supply halting end_rule trees auto begin) format
        (layouts.place_of supply halting end_rule trees auto begin) supply.eof greatest auto }
{}
