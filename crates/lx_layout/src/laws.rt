//! What holds of laid-out pieces. Each law is the contract of a function that does nothing.
ghost use Rattle.std.specs.Prelude.{◌≡◌, ◌⊎◌, ℕ, suc, ◌+◌, ◌*◌, ◌^◌, ◌<◌, ◌≤◌, Bool, List, [], ◌∷◌, ◌++◌, All, Option, Some, None, length, drop, map, nat_eq, false, true, slice_get, IsSome};
ghost use Rattle.std.specs.List.{AllByRecursion, IsDistinct, list_any};
ghost use Rattle.lx_auto.specs.Automaton.{IsAuto};
ghost use Rattle.lx_auto.specs.Run.{Standing, found_behind, run};
ghost use Rattle.lx_auto.specs.declared.automaton.Auto.{Auto};
ghost use Rattle.lx_auto.specs.declared.automaton.Edge.{Edge};
ghost use Rattle.lx_auto.specs.declared.automaton.State.{State};
ghost use Rattle.lx_base.specs.Spelling.{greatest_unit};
ghost use Rattle.lx_base.specs.declared.settings.Enc.{Enc};
ghost use Rattle.lx_ccode.specs.Machine.{Answer, Machine, code_at, is_among, looped, unit_at};
ghost use Rattle.lx_ccode.specs.Runs.{entry_block, run_of};
ghost use Rattle.lx_ccode.specs.Scanners.{CheckAtMost, IsMadeBy, IsOfScanner, StandsIn};
ghost use Rattle.lx_ccode.specs.Schedules.{Schedule};
ghost use Rattle.lx_ccode.specs.Statements.{code_of, is_refill, is_state};
ghost use Rattle.lx_ccode.specs.States.{states_from};
ghost use Rattle.lx_ccode.specs.Validity.{AreOnce, ends_once};
ghost use Rattle.lx_ccode.specs.declared.piece.Mode.{Mode};
ghost use Rattle.lx_ccode.specs.declared.piece.Piece.{Piece};
ghost use Rattle.lx_ccode.specs.declared.piece.Stmt.{Stmt};
ghost use Rattle.lx_ccode.specs.declared.piece.Stmt.TheVariants.{Peek};
ghost use Rattle.lx_regex.specs.Order.{Policy};
ghost use Rattle.lx_regex.specs.Pattern.{Pattern, end_rule};
ghost use Rattle.lx_tdfa.specs.Promise.{IsAutoUnder};
ghost use Rattle.lx_layout.specs.Carries.{Carries, EndsAs, HasEdge, IsReached, IsUnitOf, LeadsTo, NamesItsOwn, StandsAs, StopsBehind};
ghost use Rattle.lx_layout.specs.Endings.{Ending};
ghost use Rattle.lx_layout.specs.Halting.{AreHalting, Halting};
ghost use Rattle.lx_auto.specs.Shapes.{AreAgreed};
ghost use Rattle.lx_layout.specs.Layout.{StandsFrom, class_block, numbered};
ghost use Rattle.lx_layout.specs.RightInMode.{HaveEndings, IsRightInMode, IsSupplied};
ghost use Rattle.lx_layout.specs.Starts.{machine_with, run_with};
ghost use Rattle.lx_layout.specs.Supplied as supplied;
ghost use Rattle.lx_layout.specs.SuppliedLayout as layouts;
ghost use Rattle.lx_layout.specs.SuppliedLayout.{EachReader, JumpsWithin, number_in, supplied_layout};
ghost use Rattle.lx_layout.specs.Supplied.{ServesEntry};
ghost use Rattle.lx_layout.specs.Supplies.{Reader, Supply};
ghost use Rattle.lx_layout.specs.Stops.{bank_from, told_found};
ghost use Rattle.lx_layout.specs.TestRuns.{ComesTo};
ghost use Rattle.lx_dispatch.specs.Dispatch.{TestsWithin, top_of};
ghost use Rattle.lx_dispatch.specs.TestTrees.{IsTreeOf, PicksAs, TestTree, depth, picked, split_class};
ghost use Rattle.lx_layout.specs.TreeCodes.{inner_blocks, tree_code};
ghost use Rattle.lx_dispatch.specs.TransitionClasses.{Split};

/// A piece whose blocks serve the automaton of its rules is right in the mode of its supply, if a rule stands at the end of the stream
/// only where a unit does.
pub fn supplied_pieces_are_right()
    ensures { (policy : Policy) (mode : Mode) (enc : Enc) (patterns : List Pattern) (auto : Auto) (endings : ℕ → Ending) (supply : Supply)
        (halting : Halting) (piece : Piece) (place : ℕ → ℕ) (saved : Option (ℕ → ℕ)) (rules : ℕ → ℕ) (fall entry : ℕ) (cond : List ℕ)
        → IsAutoUnder policy enc patterns auto → HaveEndings enc patterns endings
        → supplied.Serves supply halting endings (greatest_unit enc) auto (code_of piece.blocks) place saved rules fall (end_rule patterns)
        → ServesEntry supply halting endings (greatest_unit enc) auto (code_of piece.blocks) place saved rules fall (end_rule patterns) entry
        → (IsSome (end_rule patterns) → IsSome supply.eof) → IsSupplied mode supply auto piece
        → entry_block piece.conds cond ≡ Some entry → IsRightInMode policy mode cond enc patterns endings piece }
{}

/// The blocks of a layout with a supply of units serve the automaton, from the entry of the layout on, if a rule stands at the end of
/// the input only where a unit does, and by each tree of tests units go as the edges say, and the states in which a match can
/// end are marked.
pub fn supplied_layouts_serve()
    ensures blocks { (supply : Supply) (halting : Halting) (endings : ℕ → Ending) (end_rule : Option ℕ) (greatest : ℕ) (trees : Reader → TestTree (Option ℕ)) (auto : Auto)
        (begin : ℕ) (blocks : List (List Stmt)) → IsAuto auto
        → All (λ (state : State). All (λ (edge : Edge). edge.hi ≤ greatest) state.edges) auto.states → AreAgreed auto.states
        → (IsSome end_rule → IsSome supply.eof) → EachReader (PicksAs (top_of supply.eof greatest) supply.among) supply.eof greatest trees auto → AreHalting supply.eof end_rule greatest auto halting
        → StandsFrom blocks begin (supplied_layout supply halting endings end_rule trees auto begin)
        → supplied.Serves supply halting endings greatest auto blocks (layouts.place_of supply halting end_rule trees auto begin) (number_in halting auto.states)
        (layouts.rule_block supply halting end_rule trees auto begin) (layouts.fall_block supply halting end_rule trees auto begin) end_rule }
    ensures entry { (supply : Supply) (halting : Halting) (endings : ℕ → Ending) (end_rule : Option ℕ) (greatest : ℕ) (trees : Reader → TestTree (Option ℕ)) (auto : Auto)
        (begin : ℕ) (blocks : List (List Stmt)) → IsAuto auto
        → All (λ (state : State). All (λ (edge : Edge). edge.hi ≤ greatest) state.edges) auto.states
        → (IsSome end_rule → IsSome supply.eof) → EachReader (PicksAs (top_of supply.eof greatest) supply.among) supply.eof greatest trees auto → AreHalting supply.eof end_rule greatest auto halting
        → StandsFrom blocks begin (supplied_layout supply halting endings end_rule trees auto begin)
        → ServesEntry supply halting endings greatest auto blocks (layouts.place_of supply halting end_rule trees auto begin) (number_in halting auto.states)
        (layouts.rule_block supply halting end_rule trees auto begin) (layouts.fall_block supply halting end_rule trees auto begin) end_rule
        (layouts.entry_of supply halting end_rule trees auto begin) }
{}

/// So a piece is right in the mode of its supply where such a layout of the automaton of its rules stands in it, by trees of tests by which
/// each unit goes as the edges say, and the condition begins at the entry of the layout.
pub fn supplied_layouts_are_right()
    ensures { (policy : Policy) (mode : Mode) (enc : Enc) (patterns : List Pattern) (auto : Auto) (trees : Reader → TestTree (Option ℕ))
        (endings : ℕ → Ending) (supply : Supply) (halting : Halting) (piece : Piece) (begin : ℕ) (cond : List ℕ)
        → IsAutoUnder policy enc patterns auto → HaveEndings enc patterns endings
        → EachReader (PicksAs (top_of supply.eof (greatest_unit enc)) supply.among) supply.eof (greatest_unit enc) trees auto
        → AreHalting supply.eof (end_rule patterns) (greatest_unit enc) auto halting
        → StandsFrom (code_of piece.blocks) begin (supplied_layout supply halting endings (end_rule patterns) trees auto begin)
        → (IsSome (end_rule patterns) → IsSome supply.eof) → IsSupplied mode supply auto piece
        → entry_block piece.conds cond ≡ Some (layouts.entry_of supply halting (end_rule patterns) trees auto begin)
        → IsRightInMode policy mode cond enc patterns endings piece }
{}

/// Each block of a layout with a supply of units has one ending statement, which is its last, and each jump goes to a block of the layout,
/// wherever it stands, if the trees of tests lead where edges lead and the states in which a match can end are marked.
pub fn supplied_layouts_are_closed()
    ensures jumps { (supply : Supply) (halting : Halting) (endings : ℕ → Ending) (end_rule : Option ℕ) (greatest room : ℕ) (trees : Reader → TestTree (Option ℕ)) (auto : Auto)
        (begin : ℕ) → IsAuto auto → EachReader (TestsWithin room greatest) supply.eof greatest trees auto
        → AreHalting supply.eof end_rule greatest auto halting
        → AllByRecursion (λ code. AllByRecursion (JumpsWithin begin (begin + length (supplied_layout supply halting endings end_rule trees auto begin))) code)
        (supplied_layout supply halting endings end_rule trees auto begin) }
    ensures ends { (supply : Supply) (halting : Halting) (endings : ℕ → Ending) (end_rule : Option ℕ) (greatest room : ℕ) (trees : Reader → TestTree (Option ℕ)) (auto : Auto)
        (begin : ℕ) → IsAuto auto → EachReader (TestsWithin room greatest) supply.eof greatest trees auto
        → AllByRecursion (λ code. ends_once code ≡ true) (supplied_layout supply halting endings end_rule trees auto begin) }
{}

/// A layout whose supply has no checks and tries no refill asks for no refill and stores no state.
pub fn supplied_layouts_ask_for_nothing()
    ensures { (supply : Supply) (halting : Halting) (endings : ℕ → Ending) (end_rule : Option ℕ) (greatest room : ℕ) (trees : Reader → TestTree (Option ℕ)) (auto : Auto)
        (begin : ℕ) → IsAuto auto → EachReader (TestsWithin room greatest) supply.eof greatest trees auto → supply.tries ≡ false
        → ((state : ℕ) → supply.check state ≡ 0)
        → AllByRecursion (λ code. (list_any is_refill code ≡ false) × (list_any is_state code ≡ false))
        (supplied_layout supply halting endings end_rule trees auto begin) }
{}

/// A layout with a supply of units stores no state where the supply has no numbers for that.
pub fn supplied_layouts_store_nothing()
    ensures { (supply : Supply) (halting : Halting) (endings : ℕ → Ending) (end_rule : Option ℕ) (greatest room : ℕ) (trees : Reader → TestTree (Option ℕ)) (auto : Auto)
        (begin : ℕ) → IsAuto auto → EachReader (TestsWithin room greatest) supply.eof greatest trees auto → supply.stored ≡ None
        → AllByRecursion (λ code. list_any is_state code ≡ false) (supplied_layout supply halting endings end_rule trees auto begin) }
{}

/// A piece carries an automaton where a layout of it with a supply of units stands, if the layout's statements name registers of the
/// automaton, and the piece stores no state at two places, where it stores any.
pub fn supplied_layouts_carry_automata()
    ensures { (piece : Piece) (endings : ℕ → Ending) (end_rule : Option ℕ) (greatest room : ℕ) (auto : Auto) (supply : Supply)
        (halting : Halting) (trees : Reader → TestTree (Option ℕ)) (begin : ℕ) → IsAuto auto
        → All (λ (state : State). All (λ (edge : Edge). edge.hi ≤ greatest) state.edges) auto.states → AreAgreed auto.states
        → (IsSome end_rule → IsSome supply.eof) → EachReader (PicksAs (top_of supply.eof greatest) supply.among) supply.eof greatest trees auto
        → EachReader (TestsWithin room greatest) supply.eof greatest trees auto
        → AreHalting supply.eof end_rule greatest auto halting
        → StandsFrom (code_of piece.blocks) begin (supplied_layout supply halting endings end_rule trees auto begin)
        → (supply.stored ≡ None) ⊎ AreOnce (states_from 0 piece.blocks)
        → piece.eof ≡ supply.eof → ((set unit : ℕ) → supply.among set unit ≡ is_among piece.table set unit)
        → ((unit : ℕ) → IsUnitOf piece unit → unit ≤ greatest)
        → AllByRecursion (λ code. AllByRecursion (NamesItsOwn auto) code) (supplied_layout supply halting endings end_rule trees auto begin)
        → Carries piece (layouts.entry_of supply halting end_rule trees auto begin) endings auto }
{}

/// The run of a match from a fresh machine is the one where registers and histories hold nothing.
pub fn fresh_machines_hold_nothing()
    ensures { (piece : Piece) (stream : List ℕ) (start : ℕ) (cond : List ℕ) (schedule : Schedule)
        → run_of piece stream start cond schedule ≡ run_with piece stream start (λ register. None) (λ history. []) cond schedule }
{}

/// A unit is tested at most as often as the number of the runs of its state has binary digits. From a block that reads the unit the
/// machine comes to the block of the unit's way, by no more tests than its tree is deep; and the blocks of the ways, which stand in a
/// layout in place of the classes, leave the tree as deep as it was.
pub fn tests_of_a_unit_are_few()
    ensures runs { (split : Split) (tree : TestTree (Option ℕ)) → IsTreeOf split tree → 2 ^ depth tree ≤ 2 * suc (length split.tests) + 1 }
    ensures made { (piece : Piece) (stream : List ℕ) (tree : TestTree ℕ) (next unit : ℕ) (to : List Stmt) (machine : Machine) (answers : List Answer)
        → StandsFrom (code_of piece.blocks) next (inner_blocks next tree)
        → unit_at piece.eof stream machine.cursor machine.limit ≡ Some unit → slice_get (code_of piece.blocks) (picked (is_among piece.table) tree unit) ≡ Some to
        → ComesTo piece stream (Peek ∷ tree_code next tree) machine answers unit (depth tree) to }
    ensures ways { (first end : ℕ) (split : Split) (tree : TestTree (Option ℕ)) → IsTreeOf split tree
        → (depth (numbered first end tree) ≡ depth tree)
        × ((sets : (set unit : ℕ) → Bool) (unit : ℕ) → picked sets (numbered first end tree) unit ≡ class_block first end (split_class split unit)) }
{}

/// In a piece that carries an automaton the machine goes as a run of the automaton goes, where the stream has the units for which the
/// piece checks. Along a word it goes from the place of one state to that of another, and the registers are the automaton's. A match
/// from the entry ends where the run stops, with the rule and the values that the automaton finds. The run of the match tells just
/// this, or it is the count of a loop.
pub fn carried_automata_lead_the_machine()
    ensures leads { (piece : Piece) (entry : ℕ) (endings : ℕ → Ending) (auto : Auto) (carries : Carries piece entry endings auto) (ahead : ℕ)
        → 0 < ahead → CheckAtMost ahead piece.blocks
        → (stream word rest : List ℕ) (standing last : Standing) (code : List Stmt) (machine : Machine) (answers : List Answer)
        → IsReached auto standing → run auto standing word ≡ Some last
        → code_at piece.blocks (Some (carries.place standing.state)) ≡ Some code
        → StandsAs piece endings auto carries.place carries.saved carries.falls machine standing
        → drop machine.cursor stream ≡ word ++ rest → AllByRecursion (IsUnitOf piece) word
        → machine.cursor + (length word + ahead) ≤ suc machine.limit
        → LeadsTo piece endings auto carries.place carries.saved carries.falls stream code machine answers (length word) last }
    ensures ends { (piece : Piece) (entry : ℕ) (endings : ℕ → Ending) (auto : Auto) (carries : Carries piece entry endings auto) (ahead : ℕ)
        → 0 < ahead → CheckAtMost ahead piece.blocks
        → (stream word : List ℕ) (start limit : ℕ) (last : Standing) (code : List Stmt) (registers : ℕ → Option ℕ)
        (histories : ℕ → List (Option ℕ)) (cond : List ℕ) (answers : List Answer)
        → code_at piece.blocks (Some entry) ≡ Some code → histories 0 ≡ []
        → StopsBehind piece auto stream start (bank_from registers histories) word last → start + (length word + ahead) ≤ limit
        → EndsAs piece endings auto carries.place carries.saved carries.falls stream code (machine_with registers histories start limit cond) answers (length word) last }
    ensures runs { (piece : Piece) (entry : ℕ) (endings : ℕ → Ending) (auto : Auto) (carries : Carries piece entry endings auto) (ahead : ℕ)
        → 0 < ahead → CheckAtMost ahead piece.blocks
        → (stream word : List ℕ) (start : ℕ) (last : Standing) (registers : ℕ → Option ℕ) (histories : ℕ → List (Option ℕ)) (cond : List ℕ)
        (schedule : Schedule) → entry_block piece.conds cond ≡ Some entry → histories 0 ≡ []
        → StopsBehind piece auto stream start (bank_from registers histories) word last → start + (length word + ahead) ≤ schedule.first
        → (run_with piece stream start registers histories cond schedule ≡ told_found endings cond (found_behind auto last) last.offset)
        ⊎ ((run_with piece stream start registers histories cond schedule).outcome ≡ looped) }
{}

/// Two automata that one scanner of a piece carries stop behind the same word of a stream, and find the same match.
pub fn carried_automata_are_alike()
    ensures { (piece : Piece) (entry : ℕ) (endings : ℕ → Ending) (auto other : Auto) → Carries piece entry endings auto
        → Carries piece entry endings other → (ahead : ℕ) → 0 < ahead → CheckAtMost ahead piece.blocks
        → (stream word words : List ℕ) (start limit : ℕ) (last behind : Standing) (registers : ℕ → Option ℕ)
        (histories : ℕ → List (Option ℕ)) (cond : List ℕ) → histories 0 ≡ []
        → StopsBehind piece auto stream start (bank_from registers histories) word last
        → StopsBehind piece other stream start (bank_from registers histories) words behind
        → start + (length word + ahead) ≤ limit → start + (length words + ahead) ≤ limit
        → (word ≡ words)
        × (told_found endings cond (found_behind auto last) last.offset ≡ told_found endings cond (found_behind other behind) behind.offset) }
{}

/// A piece has at least as many blocks as an automaton that it carries has states with an edge. Different blocks of the scanner that
/// read a unit, the entry aside, are the places of different states with an edge.
pub fn carried_states_are_blocks()
    ensures states { (piece : Piece) (entry : ℕ) (endings : ℕ → Ending) (auto : Auto) → Carries piece entry endings auto
        → (states : List ℕ) → AllByRecursion (HasEdge auto) states → IsDistinct nat_eq states → length states ≤ length piece.blocks }
    ensures blocks { (piece : Piece) (entry : ℕ) (endings : ℕ → Ending) (auto : Auto) (carries : Carries piece entry endings auto)
        (blocks : List ℕ)
        → AllByRecursion (λ block. (block ≡ entry → ⊥) × IsOfScanner piece.blocks entry block × StandsIn piece.blocks block Peek) blocks
        → IsDistinct nat_eq blocks
        → (states : List ℕ) × (map carries.place states ≡ blocks) × AllByRecursion (HasEdge auto) states × IsDistinct nat_eq states }
{}

/// A piece whose blocks serve an automaton carries it, if different states with an edge stand at different blocks, each block of the
/// scanner that reads a unit is one of these or the entry, and its statements name registers of the automaton.
pub fn supplied_pieces_carry_automata()
    ensures { (piece : Piece) (entry : ℕ) (endings : ℕ → Ending) (greatest : ℕ) (auto : Auto) (supply : Supply) (halting : Halting) (place : ℕ → ℕ) (saved : Option (ℕ → ℕ)) (rules : ℕ → ℕ)
        (fall : ℕ) (end_rule : Option ℕ)
        → supplied.Serves supply halting endings greatest auto (code_of piece.blocks) place saved rules fall end_rule
        → ServesEntry supply halting endings greatest auto (code_of piece.blocks) place saved rules fall end_rule entry
        → IsAuto auto → piece.eof ≡ supply.eof → ((set unit : ℕ) → supply.among set unit ≡ is_among piece.table set unit)
        → ((unit : ℕ) → IsUnitOf piece unit → unit ≤ greatest)
        → ((state other : ℕ) → HasEdge auto state → HasEdge auto other → place state ≡ place other → state ≡ other)
        → ((block : ℕ) → IsOfScanner piece.blocks entry block → StandsIn piece.blocks block Peek
        → (block ≡ entry) ⊎ ((state : ℕ) × HasEdge auto state × (place state ≡ block)))
        → ((statement : Stmt) → IsMadeBy piece.blocks entry statement → NamesItsOwn auto statement)
        → Carries piece entry endings auto }
{}
