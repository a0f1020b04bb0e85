//! What holds of the POSIX order and of kernels under it. Each law is the contract of a function that does nothing.
ghost use Rattle.std.specs.Prelude.{◌≡◌, ◌≢◌, ◌↔◌, ◌++◌, ◌*◌, ◌<◌, ◌≤◌, ◌⊎◌, ℕ, List, [], ◌∷◌, length, map, min, true, false, None, Some, AllPairs, slice_get, slice_index, sum_by};
ghost use Rattle.lx_base.specs.declared.limits.TheConstants.{KERNEL_LIMIT, PLACE_LIMIT};
ghost use Rattle.lx_base.specs.declared.settings.Enc.{Enc};
ghost use Rattle.lx_posix.specs.Accepts.{IsFirstAccept, posix_accept_after};
ghost use Rattle.lx_posix.specs.Beginnings.{AreByRule};
ghost use Rattle.lx_posix.specs.Comparing.{Ranked, number_between, ranked_at};
ghost use Rattle.lx_posix.specs.KernelLists.{entries_by, posix_kernel_after, posix_segments, ranks_after, ranks_step};
ghost use Rattle.lx_posix.specs.KernelSteps.{AreListed, IsStepOf, Pairs, PlacesAreDecided, Source, Stem, beginnings, sources};
ghost use Rattle.lx_posix.specs.KernelValues.{posix_all_values_after, posix_last_values_after};
ghost use Rattle.lx_posix.specs.KeptKernels as kept_kernels;
ghost use Rattle.lx_posix.specs.KeptKernels.{AreReached, Keeps, rule_at, start_kernel};
ghost use Rattle.lx_posix.specs.KeptPlaces.{IsLeafEnd, IsRuleBeginning};
ghost use Rattle.lx_posix.specs.LevelPaths.{AreDepths, LevelPath, PlainPath, level_choices, lowest_on, state_depth};
ghost use Rattle.lx_posix.specs.LevelSearch.{ArePlaceDepths, level_segments, place_depth, ranks_by};
ghost use Rattle.lx_posix.specs.Levels.{levelled};
ghost use Rattle.lx_posix.specs.Numbers.{IsFirstOf, PosixPrecedes};
ghost use Rattle.lx_posix.specs.Parting.{Parting, Parts, events};
ghost use Rattle.lx_posix.specs.PosixKernel.{AllDifferByNumbers, AreClosed, ArePosixKernels, HasTooManyPosixKernels, HoldEveryKernel, IsBestPosix, IsPosixKernel, IsSameKernel};
ghost use Rattle.lx_posix.specs.RankTables.{AreTooManyRanks, HaveAllRanks, HaveDifferentRanks};
ghost use Rattle.lx_posix.specs.Starts.{AreWeighed, Start, is_start_first, level_starts};
ghost use Rattle.lx_posix.specs.Walks.{after, depth, kept, lowest};
ghost use Rattle.lx_posix.specs.declared.kept.Kept.{Kept};
ghost use Rattle.lx_regex.specs.Automaton.{State, automaton};
ghost use Rattle.lx_regex.specs.ClassLimits.{AllClassesFit};
ghost use Rattle.lx_regex.specs.Cut.{BeginsMatch, Cut, EndsInUnit, GoesOn, IsCut, SamePlace, last_part, rule_part};
ghost use Rattle.lx_regex.specs.Dictionary.{IsBefore};
ghost use Rattle.lx_regex.specs.Least.{HasTree};
ghost use Rattle.lx_regex.specs.Order.{posix};
ghost use Rattle.lx_regex.specs.Pattern.{Pattern, terms_of};
ghost use Rattle.lx_regex.specs.Plain.{mark_of};
ghost use Rattle.lx_regex.specs.Posix.{IsLonger};
ghost use Rattle.lx_regex.specs.Reading.{IsReading};
ghost use Rattle.lx_regex.specs.Script.{Symbol, choices, picks, reads, script, units};
ghost use Rattle.lx_regex.specs.Term.{Term};
ghost use Rattle.lx_regex.specs.Tree.{Tree};
ghost use Rattle.lx_regex.specs.Values.{all_events, last_event};
ghost use Rattle.lx_regex.specs.Walk.{mark};
ghost use Rattle.lx_tdfa.specs.Accepts.{Accepts};
ghost use Rattle.lx_tdfa.specs.Graph.{graph_of, path_symbols};
ghost use Rattle.lx_tdfa.specs.Kernels.{Candidate, Entry, cut_of, places};
ghost use Rattle.lx_tdfa.specs.Making.{AreMany};
ghost use Rattle.lx_tdfa.specs.Steps.{IsInLeaf};
ghost use Rattle.lx_tdfa.specs.Values.{value_at};
ghost use Rattle.lx_tnfa.specs.LeafReadings.{IsNth};
ghost use Rattle.lx_tnfa.specs.PlaceNumbers.{place_number};
ghost use Rattle.lx_tnfa.specs.Tnfa.{IsTnfaOf, Tnfa};
ghost use Rattle.lx_tnfa.specs.declared.places.Place.{Place};

/// A term that has a tree for a word has a first plain one under the POSIX order.
pub fn best_tree_exists()
    ensures { (enc : Enc) (part : ℕ) (e : Term) (word : List ℕ) → 0 < part
        → HasTree enc part e word → (tree : Tree e) × IsBestPosix enc part e word tree }
{}

/// Two different cuts of one rule at one word part at a choice, the one with the lesser choices by the lesser.
pub fn fronts_part_at_a_choice()
    ensures { (enc : Enc) (rules : List Term) (cut other : Cut) (rest more : List Symbol) → cut.rule ≡ other.rule
        → EndsInUnit cut.front → EndsInUnit other.front → units cut.front ≡ units other.front
        → GoesOn enc rules cut rest → GoesOn enc rules other more
        → (cut.front ≡ other.front)
        ⊎ (Parts (length (units cut.front)) 0 (events (cut.front ++ rest)) (events (other.front ++ more))
        ⊎ Parts (length (units other.front)) 0 (events (other.front ++ more)) (events (cut.front ++ rest))) }
{}

/// A part fixes how many positions are open in a cut that stands in it, of one word or of several.
pub fn part_fixes_depth()
    ensures { (enc : Enc) (rules : List Term) (cut other : Cut) (rest more : List Symbol) → cut.rule ≡ other.rule
        → last_part 0 cut.front ≡ last_part 0 other.front → EndsInUnit cut.front → EndsInUnit other.front
        → GoesOn enc rules cut rest → GoesOn enc rules other more → depth 0 cut.front ≡ depth 0 other.front }
{}

/// Of two cuts of one rule at one word that are not one, one is first, with one number, and the other is not. Of three in order
/// the number of the outer two is the lesser of those between.
pub fn cuts_are_ordered()
    ensures total { (enc : Enc) (rules : List Term) (word : List ℕ) (cut other : Cut)
        → IsCut enc rules word cut → IsCut enc rules word other → cut.rule ≡ other.rule
        → (cut.front ≡ other.front)
        ⊎ (((number : ℕ) × IsFirstOf enc rules cut other number) ⊎ ((number : ℕ) × IsFirstOf enc rules other cut number)) }
    ensures one { (enc : Enc) (rules : List Term) (word : List ℕ) (cut other : Cut) (number second : ℕ)
        → IsCut enc rules word cut → IsCut enc rules word other
        → IsFirstOf enc rules cut other number → IsFirstOf enc rules other cut second → ⊥ }
    ensures number { (enc : Enc) (rules : List Term) (word : List ℕ) (cut other : Cut) (number second : ℕ)
        → IsCut enc rules word cut → IsCut enc rules word other
        → IsFirstOf enc rules cut other number → IsFirstOf enc rules cut other second → number ≡ second }
    ensures between { (enc : Enc) (rules : List Term) (word : List ℕ) (cut middle other : Cut) (number second : ℕ)
        → IsCut enc rules word cut → IsCut enc rules word middle → IsCut enc rules word other
        → IsFirstOf enc rules cut middle number → IsFirstOf enc rules middle other second
        → IsFirstOf enc rules cut other (min number second) }
{}

/// One more unit from two cuts of one word: what each walk keeps of the open positions decides the order, and the number.
pub fn one_more_unit()
    ensures { (enc : Enc) (rules : List Term) (word : List ℕ) (cut other : Cut) (walk way : List Symbol) (unit number : ℕ)
        → IsCut enc rules word cut → IsCut enc rules word other → EndsInUnit walk → EndsInUnit way
        → IsCut enc rules (word ++ unit ∷ []) (after cut walk) → IsCut enc rules (word ++ unit ∷ []) (after other way)
        → IsFirstOf enc rules cut other number
        → (kept cut walk < min number (kept other way)
        → IsFirstOf enc rules (after other way) (after cut walk) (min number (min (kept cut walk) (kept other way))))
        × (min number (kept other way) ≤ kept cut walk
        → IsFirstOf enc rules (after cut walk) (after other way) (min number (min (kept cut walk) (kept other way)))) }
{}

/// One more unit from one cut, or from the beginning of a rule, by two walks, the first with the lesser choices: they part under
/// some open positions, and what each keeps of these decides the order, and the number.
pub fn two_walks_from_one_place()
    ensures { (enc : Enc) (rules : List Term) (word : List ℕ) (cut : Cut) (walk way : List Symbol) (unit : ℕ)
        → units walk ≡ unit ∷ [] → units way ≡ unit ∷ []
        → IsCut enc rules (word ++ unit ∷ []) (after cut walk) → IsCut enc rules (word ++ unit ∷ []) (after cut way)
        → IsBefore (choices walk) (choices way)
        → (shared first second : ℕ) × Parting 1 (depth 0 cut.front) (events walk) (events way) shared first second
        × (first < second → IsFirstOf enc rules (after cut way) (after cut walk) (min first second))
        × (second ≤ first → IsFirstOf enc rules (after cut walk) (after cut way) (min first second)) }
{}

/// Of two walks over a unit from places of a kernel that of the first rule comes first. From two places of one rule that from the first
/// place comes first, unless it keeps less than both the number of the two places and what the other walk keeps.
pub fn walks_from_places_are_ordered()
    ensures { (enc : Enc) (patterns : List Pattern) (tnfa : Tnfa) (word : List ℕ) (unit i j : ℕ) (cut other : Cut)
        (walk way : List Symbol)
        → IsTnfaOf enc patterns tnfa → AllClassesFit enc (terms_of patterns) → i < j
        → slice_get (map cut_of (posix_kernel_after tnfa (terms_of patterns) word)) i ≡ Some cut
        → slice_get (map cut_of (posix_kernel_after tnfa (terms_of patterns) word)) j ≡ Some other
        → EndsInUnit walk → EndsInUnit way → IsCut enc (terms_of patterns) (word ++ unit ∷ []) (after cut walk)
        → IsCut enc (terms_of patterns) (word ++ unit ∷ []) (after other way)
        → AreWeighed enc (terms_of patterns) (ranks_after tnfa (terms_of patterns) word) i walk j way (after cut walk) (after other way) }
{}

/// A walk taken in two parts, of which the first reads no unit, keeps the lesser of what the parts keep.
pub fn walk_keeps_in_parts()
    ensures { (cut : Cut) (walk rest : List Symbol) → units walk ≡ []
        → kept cut (walk ++ rest)
        ≡ min (kept cut walk) (lowest (depth (depth 0 cut.front) walk) (depth (depth 0 cut.front) walk) rest) }
{}

/// Two walks without a unit come from two cuts to one state, at which a symbol stands, and the second goes on from there to a
/// unit. Where the first keeps no less than the lesser of the number and what the second keeps, a walk from the first cut comes
/// to the second's place, and is before it. It passes no state twice: it leaves out what the rest would go round. So a search may
/// drop the second walk at that state.
pub fn later_walk_is_dropped()
    ensures { (enc : Enc) (rules : List Term) (word : List ℕ) (unit : ℕ) (cut other : Cut) (walk way rest more : List Symbol)
        (symbol : Symbol) (state number : ℕ)
        → IsCut enc rules word cut → IsCut enc rules word other → IsFirstOf enc rules cut other number
        → mark_of symbol ≡ Some state → units walk ≡ [] → units way ≡ []
        → GoesOn enc rules (after cut walk) (symbol ∷ more)
        → EndsInUnit (symbol ∷ rest) → IsCut enc rules (word ++ unit ∷ []) (after other (way ++ symbol ∷ rest))
        → min number (kept other way) ≤ kept cut walk
        → (shorter : List Symbol) × IsCut enc rules (word ++ unit ∷ []) (after cut shorter)
        × SamePlace enc rules (after cut shorter) (after other (way ++ symbol ∷ rest))
        × IsFirstOf enc rules (after cut shorter) (after other (way ++ symbol ∷ rest))
        (min number (min (kept cut shorter) (kept other (way ++ symbol ∷ rest)))) }
{}

/// The same of two walks from one cut, or from the beginning of a rule, that part at a choice behind a common walk: the one with the
/// greater choice may be dropped where the other keeps no less from there.
pub fn later_branch_is_dropped()
    ensures { (enc : Enc) (rules : List Term) (word : List ℕ) (unit : ℕ) (cut : Cut) (common walk way rest more : List Symbol)
        (lesser greater : ℕ) (symbol : Symbol) (state : ℕ)
        → units cut.front ≡ word → lesser < greater → mark_of symbol ≡ Some state
        → units common ≡ [] → units walk ≡ [] → units way ≡ []
        → GoesOn enc rules (after cut (common ++ picks lesser ∷ walk)) (symbol ∷ more)
        → EndsInUnit (symbol ∷ rest)
        → IsCut enc rules (word ++ unit ∷ []) (after cut (common ++ picks greater ∷ (way ++ symbol ∷ rest)))
        → kept (after cut common) way ≤ kept (after cut common) walk
        → (shorter : List Symbol) × IsCut enc rules (word ++ unit ∷ []) (after cut shorter)
        × SamePlace enc rules (after cut shorter) (after cut (common ++ picks greater ∷ (way ++ symbol ∷ rest)))
        × ((number : ℕ)
        × IsFirstOf enc rules (after cut shorter) (after cut (common ++ picks greater ∷ (way ++ symbol ∷ rest))) number) }
{}

/// Of two walks over a unit from one place that comes first whose choices in a search over states and levels come first. So a search
/// that is depth-first over these comes first to each place by its first walk, and in their order.
pub fn levels_give_the_order()
    ensures { (enc : Enc) (rules : List Term) (word : List ℕ) (unit : ℕ) (cut : Cut) (walk way : List Symbol)
        → units walk ≡ unit ∷ [] → units way ≡ unit ∷ []
        → IsCut enc rules (word ++ unit ∷ []) (after cut walk) → IsCut enc rules (word ++ unit ∷ []) (after cut way)
        → IsBefore (levelled (depth 0 cut.front) 0 (events walk)) (levelled (depth 0 cut.front) 0 (events way))
        → (number : ℕ) × IsFirstOf enc rules (after cut walk) (after cut way) number }
{}

/// A search over states and levels finds plain paths alone, and the first of them. The least of its paths from a state to another, up
/// to that one's depth, which is at no state and level twice, is that of a path which visits no state twice; and of no other such path
/// the choices come before.
pub fn level_searches_find_plain_paths()
    ensures { (graph : List (List ℕ)) (deep : ℕ → ℕ) (state level : ℕ) (choices : List ℕ) (to : ℕ) → level ≤ deep state
        → LevelPath graph deep [] state level choices to (deep to)
        → ((other : List ℕ) → LevelPath graph deep [] state level other to (deep to) → IsBefore other choices → ⊥)
        → (way : List ℕ) × PlainPath graph deep [] state way to × (level ≤ lowest_on graph deep state way)
        × (level_choices graph deep state level way ≡ choices)
        × ((other : List ℕ) → PlainPath graph deep [] state other to → level ≤ lowest_on graph deep state other
        → IsBefore (level_choices graph deep state level other) choices → ⊥) }
{}

/// From one place such a search finds the first walk to each leaf: over the states of the automaton of a rule list and their depths,
/// the least of its paths from the state of a cut to a leaf that reads the unit is that of a walk which is before all others to it.
pub fn level_searches_find_first_walks()
    ensures { (enc : Enc) (rules : List Term) (deep : ℕ → ℕ) (word : List ℕ) (unit : ℕ) (cut : Cut) (state to : ℕ) (choices : List ℕ)
        (row : State) (choice : List Symbol) (left : List ℕ)
        → AreDepths (automaton rules) deep → deep state ≡ depth (depth 0 cut.front) (mark state ∷ [])
        → slice_get (automaton rules) to ≡ Some row → IsReading enc row choice (unit ∷ left)
        → LevelPath (graph_of (automaton rules)) deep [] state 0 choices to (deep to)
        → ((other : List ℕ) → LevelPath (graph_of (automaton rules)) deep [] state 0 other to (deep to) → IsBefore other choices → ⊥)
        → (way : List ℕ) × PlainPath (graph_of (automaton rules)) deep [] state way to
        × (level_choices (graph_of (automaton rules)) deep state 0 way ≡ choices)
        × ((other : List ℕ) → PlainPath (graph_of (automaton rules)) deep [] state other to
        → IsCut enc rules (word ++ unit ∷ [])
        (after cut (path_symbols (automaton rules) state way (mark to ∷ (choice ++ reads unit ∷ []))))
        → IsCut enc rules (word ++ unit ∷ [])
        (after cut (path_symbols (automaton rules) state other (mark to ∷ (choice ++ reads unit ∷ []))))
        → (way ≡ other) ⊎ ((number : ℕ)
        × IsFirstOf enc rules (after cut (path_symbols (automaton rules) state way (mark to ∷ (choice ++ reads unit ∷ []))))
        (after cut (path_symbols (automaton rules) state other (mark to ∷ (choice ++ reads unit ∷ [])))) number)) }
{}

/// The automaton of each rule list has depths of its states. A place at which a state stands has the depth before that state.
pub fn states_have_depths()
    ensures states { (rules : List Term) → AreDepths (automaton rules) (state_depth rules) }
    ensures places { (enc : Enc) (patterns : List Pattern) (tnfa : Tnfa) (word : List ℕ) (index : ℕ) (entry : Entry)
        → IsTnfaOf enc patterns tnfa → AllClassesFit enc (terms_of patterns)
        → IsNth (posix_kernel_after tnfa (terms_of patterns) word) index entry → entry.place < length (automaton (terms_of patterns))
        → state_depth (terms_of patterns) entry.place
        ≡ depth (ranked_at (ranks_after tnfa (terms_of patterns) word) index).depth (mark entry.place ∷ []) }
{}

/// A search over states and levels begins from each place at each level that is no greater than the depth there and that of its state.
/// Each of these starts comes before all that it beats.
pub fn starts_are_in_order()
    ensures each { (deep : ℕ → ℕ) (ranks : List Ranked) (from level : ℕ) (ranked : Ranked)
        → IsNth ranks from ranked → level ≤ min ranked.depth (deep ranked.place)
        → (index : ℕ) × IsNth (level_starts deep ranks) index (record { from = from; level = level }) }
    ensures order { (deep : ℕ → ℕ) (ranks : List Ranked) (index later : ℕ) (start other : Start)
        → index < later → IsNth (level_starts deep ranks) index start → IsNth (level_starts deep ranks) later other
        → is_start_first ranks start other ≡ true }
{}

/// The places that are kept after a word stand in the order of their rules, and the first one of a later rule has the number 0.
pub fn kept_places_are_by_rule()
    ensures { (enc : Enc) (patterns : List Pattern) (tnfa : Tnfa) (word : List ℕ) → IsTnfaOf enc patterns tnfa
        → AllClassesFit enc (terms_of patterns) → AreByRule (ranks_after tnfa (terms_of patterns) word) }
{}

/// Depths of states, and those of places, are no more than half of the states. So as many levels as there are states are enough.
pub fn depths_are_small()
    ensures states { (rules : List Term) (state : ℕ) → 2 * state_depth rules state ≤ length (automaton rules) }
    ensures places { (enc : Enc) (patterns : List Pattern) (tnfa : Tnfa) (word : List ℕ) (index : ℕ) (ranked : Ranked)
        → IsTnfaOf enc patterns tnfa → AllClassesFit enc (terms_of patterns)
        → IsNth (ranks_after tnfa (terms_of patterns) word) index ranked → 2 * ranked.depth ≤ length (automaton (terms_of patterns)) }
    ensures width { (enc : Enc) (patterns : List Pattern) (tnfa : Tnfa) (word : List ℕ) (place : ℕ)
        → IsTnfaOf enc patterns tnfa → AllClassesFit enc (terms_of patterns)
        → place_depth (terms_of patterns) (ranks_after tnfa (terms_of patterns) word) place < length (automaton (terms_of patterns)) }
{}

/// A place at which a state stands is behind the end of a leaf or, where no unit is read yet, the beginning of a rule.
pub fn states_stand_at_ends_and_beginnings()
    ensures ends { (enc : Enc) (patterns : List Pattern) (tnfa : Tnfa) (word : List ℕ) (deep : ℕ → ℕ) (index : ℕ) (ranked : Ranked)
        → IsTnfaOf enc patterns tnfa → AllClassesFit enc (terms_of patterns) → word ≢ []
        → ArePlaceDepths (automaton (terms_of patterns)) (ranks_after tnfa (terms_of patterns) word) deep
        → IsNth (ranks_after tnfa (terms_of patterns) word) index ranked → ranked.place < length (automaton (terms_of patterns))
        → IsLeafEnd ranked (deep ranked.place) }
    ensures beginnings { (enc : Enc) (patterns : List Pattern) (tnfa : Tnfa) (deep : ℕ → ℕ) (index : ℕ) (ranked : Ranked)
        → IsTnfaOf enc patterns tnfa → AllClassesFit enc (terms_of patterns)
        → ArePlaceDepths (automaton (terms_of patterns)) (ranks_after tnfa (terms_of patterns) []) deep
        → IsNth (ranks_after tnfa (terms_of patterns) []) index ranked → ranked.place < length (automaton (terms_of patterns))
        → IsRuleBeginning (terms_of patterns) ranked (deep ranked.place) }
{}

/// One depth-first search over states and levels, from all starts in their order, which keeps what it visited for all of them, lists
/// the first segments over a unit from the places of a kernel: to each place the first, in their order.
pub fn one_search_lists_first_segments()
    ensures segments { (enc : Enc) (patterns : List Pattern) (tnfa : Tnfa) (word : List ℕ) (unit : ℕ) (deep : ℕ → ℕ) (width : ℕ)
        → IsTnfaOf enc patterns tnfa → AllClassesFit enc (terms_of patterns)
        → AreDepths (automaton (terms_of patterns)) deep
        → ArePlaceDepths (automaton (terms_of patterns)) (ranks_after tnfa (terms_of patterns) word) deep
        → ((state : ℕ) → deep state < width)
        → level_segments tnfa (terms_of patterns) deep width (ranks_after tnfa (terms_of patterns) word) unit
        ≡ posix_segments tnfa (terms_of patterns) (ranks_after tnfa (terms_of patterns) word) unit }
    ensures ranks { (enc : Enc) (patterns : List Pattern) (tnfa : Tnfa) (word : List ℕ) (unit : ℕ) (deep : ℕ → ℕ) (width : ℕ)
        → IsTnfaOf enc patterns tnfa → AllClassesFit enc (terms_of patterns)
        → AreDepths (automaton (terms_of patterns)) deep
        → ArePlaceDepths (automaton (terms_of patterns)) (ranks_after tnfa (terms_of patterns) word) deep
        → ((state : ℕ) → deep state < width)
        → ranks_after tnfa (terms_of patterns) (word ++ unit ∷ [])
        ≡ ranks_by tnfa (terms_of patterns) (ranks_after tnfa (terms_of patterns) word) unit
        (level_segments tnfa (terms_of patterns) deep width (ranks_after tnfa (terms_of patterns) word) unit) }
    ensures depths { (enc : Enc) (patterns : List Pattern) (tnfa : Tnfa) (word : List ℕ)
        → IsTnfaOf enc patterns tnfa → AllClassesFit enc (terms_of patterns)
        → AreDepths (automaton (terms_of patterns)) (place_depth (terms_of patterns) (ranks_after tnfa (terms_of patterns) word))
        × ArePlaceDepths (automaton (terms_of patterns)) (ranks_after tnfa (terms_of patterns) word)
        (place_depth (terms_of patterns) (ranks_after tnfa (terms_of patterns) word))
        × ((width : ℕ) × ((state : ℕ) → place_depth (terms_of patterns) (ranks_after tnfa (terms_of patterns) word) state < width)) }
{}

/// A word has at most one kernel under the POSIX order.
pub fn posix_kernel_is_unique()
    ensures { (enc : Enc) (rules : List Term) (word : List ℕ) (kernel other : List Cut)
        → IsPosixKernel enc rules word kernel → IsPosixKernel enc rules word other → kernel ≡ other }
{}

/// The kernel of the empty word is the one place in which no rule has begun.
pub fn empty_word_has_one_place()
    ensures { (enc : Enc) (rules : List Term) (kernel : List Cut)
        → IsPosixKernel enc rules [] kernel ↔ (kernel ≡ record { rule = 0; front = [] } ∷ []) }
{}

/// To find the kernel of a word of one unit it is enough to compare the cuts that come from the beginnings of the rules by a walk
/// to that unit; and each of its cuts does.
pub fn first_unit_is_from_beginnings()
    ensures kernel { (enc : Enc) (rules : List Term) (unit : ℕ) (next : List Cut)
        → IsStepOf (PosixPrecedes enc rules) enc rules [] (beginnings 0 rules) unit next → IsPosixKernel enc rules (unit ∷ []) next }
    ensures source { (enc : Enc) (rules : List Term) (unit : ℕ) (next : List Cut)
        → IsPosixKernel enc rules (unit ∷ []) next
        → (i : ℕ) (cut : Cut) → slice_get next i ≡ Some cut → Source (beginnings 0 rules) unit cut }
{}

/// To find the kernel after one more unit it is enough to compare the cuts that come from the kernel by a walk to that unit.
pub fn posix_kernel_from_walks()
    ensures { (enc : Enc) (rules : List Term) (first : ℕ) (word : List ℕ) (unit : ℕ) (kernel next : List Cut)
        → IsPosixKernel enc rules (first ∷ word) kernel → IsStepOf (PosixPrecedes enc rules) enc rules (first ∷ word) kernel unit next
        → IsPosixKernel enc rules ((first ∷ word) ++ unit ∷ []) next }
{}

/// From a list of cuts of one more unit, with the first of each place among them, comes a step, where it is decided which stand at
/// one place. So each word has a kernel where such lists are there.
pub fn listed_cuts_have_a_kernel()
    ensures step { (enc : Enc) (rules : List Term) (word : List ℕ) (unit : ℕ) (kernel listed : List Cut)
        → AreListed (PosixPrecedes enc rules) enc rules word kernel unit listed → PlacesAreDecided enc rules (word ++ unit ∷ [])
        → (next : List Cut) × IsStepOf (PosixPrecedes enc rules) enc rules word kernel unit next }
    ensures each { (enc : Enc) (rules : List Term) → ((word : List ℕ) → PlacesAreDecided enc rules word)
        → ((word : List ℕ) (kernel : List Cut) (unit : ℕ) → IsPosixKernel enc rules word kernel
        → (listed : List Cut) × AreListed (PosixPrecedes enc rules) enc rules word (sources rules word kernel) unit listed)
        → (word : List ℕ) → (kernel : List Cut) × IsPosixKernel enc rules word kernel }
{}

/// The kernel after one more unit, its numbers, and for each of its places the place that it comes from and the walk, are
/// functions of the kernel with its numbers and that unit.
pub fn posix_kernel_goes_on()
    ensures source { (enc : Enc) (rules : List Term) (first : ℕ) (word : List ℕ) (unit : ℕ) (kernel next : List Cut)
        → IsPosixKernel enc rules (first ∷ word) kernel → IsPosixKernel enc rules ((first ∷ word) ++ unit ∷ []) next
        → (i : ℕ) (cut : Cut) → slice_get next i ≡ Some cut → Source kernel unit cut }
    ensures whole { (enc : Enc) (rules : List Term) (first : ℕ) (word : List ℕ) (initial : ℕ) (text : List ℕ) (unit : ℕ)
        (kernel other next other_next : List Cut)
        → IsPosixKernel enc rules (first ∷ word) kernel → IsPosixKernel enc rules (initial ∷ text) other
        → IsSameKernel enc rules kernel other
        → IsPosixKernel enc rules ((first ∷ word) ++ unit ∷ []) next
        → IsPosixKernel enc rules ((initial ∷ text) ++ unit ∷ []) other_next
        → Pairs Cut (λ (cut source : Cut). Stem kernel other unit cut source) next other_next
        × IsSameKernel enc rules next other_next }
{}

/// The cut of the best tree of a word at the word's end is first among the cuts of its rule that may end there.
pub fn best_tree_has_the_first_cut()
    ensures { (enc : Enc) (rules : List Term) (word : List ℕ) (cut best : Cut) (rest more : List Symbol) (number : ℕ) (e : Term)
        (tree : Tree e)
        → IsCut enc rules word cut → IsCut enc rules word best → units rest ≡ [] → units more ≡ [] → GoesOn enc rules cut rest
        → slice_get rules best.rule ≡ Some e → script enc (rule_part rules best.rule) tree ≡ best.front ++ more
        → IsBestPosix enc (rule_part rules best.rule) e word tree → IsFirstOf enc rules cut best number → ⊥ }
{}

/// Of two trees that differ behind the last unit alone the one with the lesser choices there is first.
pub fn lesser_walk_to_the_end_is_first()
    ensures { (enc : Enc) (part : ℕ) (e : Term) (tree other : Tree e) (front rest more : List Symbol) → 0 < part
        → script enc part tree ≡ front ++ rest → script enc part other ≡ front ++ more → units rest ≡ [] → units more ≡ []
        → IsBefore (choices rest) (choices more) → IsLonger enc tree other }
{}

/// The first place of a rule in a kernel from which a walk without a unit ends the rule, with the walk of the least choices, has
/// the best tree of the word.
pub fn first_accept_is_best()
    ensures { (enc : Enc) (rules : List Term) (first : ℕ) (word : List ℕ) (kernel : List Cut) (place : ℕ) (cut : Cut)
        (rest : List Symbol) (e : Term) (tree : Tree e)
        → IsPosixKernel enc rules (first ∷ word) kernel → IsFirstAccept enc rules kernel place cut rest
        → slice_get rules cut.rule ≡ Some e → script enc (rule_part rules cut.rule) tree ≡ cut.front ++ rest
        → IsBestPosix enc (rule_part rules cut.rule) e (first ∷ word) tree }
{}

/// What the list after a word accepts: nothing where no rule has a tree for the word; else the first rule that has one, by a way that
/// makes the front of one of the places to the script of this rule's best tree.
pub fn best_trees_are_accepted()
    ensures { (enc : Enc) (patterns : List Pattern) (tnfa : Tnfa) (word : List ℕ) → IsTnfaOf enc patterns tnfa
        → AllClassesFit enc (terms_of patterns)
        → Accepts posix enc (terms_of patterns) word (posix_kernel_after tnfa (terms_of patterns) word)
        (posix_accept_after tnfa (terms_of patterns) word) }
{}

/// Where each word has a kernel: kernels of some words, the empty one among them, from which one more unit leads to an empty kernel
/// or to one of themselves, are all that there are.
pub fn closed_kernels_are_all()
    ensures { (enc : Enc) (rules : List Term) (words : List (List ℕ)) (kernels : List (List Cut)) (start : ℕ)
        → ((word : List ℕ) → (kernel : List Cut) × IsPosixKernel enc rules word kernel)
        → ArePosixKernels enc rules words kernels → AreClosed enc rules words kernels → slice_get words start ≡ Some []
        → HoldEveryKernel enc rules kernels }
{}

/// Where every kernel is the same as one of some that all differ, there are too many kernels exactly where these are too many.
pub fn found_kernels_are_counted()
    ensures { (enc : Enc) (rules : List Term) (words : List (List ℕ)) (kernels : List (List Cut))
        → ArePosixKernels enc rules words kernels → AllDifferByNumbers enc rules kernels → HoldEveryKernel enc rules kernels
        → HasTooManyPosixKernels enc rules ↔ ((KERNEL_LIMIT < length words) ⊎ (PLACE_LIMIT < sum_by length kernels)) }
{}

/// The list that is computed for a word, unit by unit, is the kernel of the word. So each word has a kernel.
pub fn posix_kernels_are_listed()
    ensures kernel { (enc : Enc) (patterns : List Pattern) (tnfa : Tnfa) (word : List ℕ) → IsTnfaOf enc patterns tnfa
        → AllClassesFit enc (terms_of patterns) → word ≢ []
        → IsPosixKernel enc (terms_of patterns) word (map cut_of (posix_kernel_after tnfa (terms_of patterns) word)) }
    ensures some { (enc : Enc) (patterns : List Pattern) (tnfa : Tnfa) (word : List ℕ) → IsTnfaOf enc patterns tnfa
        → AllClassesFit enc (terms_of patterns)
        → (kernel : List Cut) × IsPosixKernel enc (terms_of patterns) word kernel }
{}

/// With two places of one rule the kernel of a word keeps the number that is computed beside them.
pub fn posix_numbers_are_kept()
    ensures { (enc : Enc) (patterns : List Pattern) (tnfa : Tnfa) (word : List ℕ) (i j : ℕ) (cut other : Cut)
        → IsTnfaOf enc patterns tnfa → AllClassesFit enc (terms_of patterns) → i < j
        → slice_get (map cut_of (posix_kernel_after tnfa (terms_of patterns) word)) i ≡ Some cut
        → slice_get (map cut_of (posix_kernel_after tnfa (terms_of patterns) word)) j ≡ Some other → cut.rule ≡ other.rule
        → IsFirstOf enc (terms_of patterns) cut other (number_between (ranks_after tnfa (terms_of patterns) word) i j) }
{}

/// After two words the same places and numbers are kept exactly where their kernels have the same places in order and the same
/// numbers.
pub fn equal_ranks_are_equal_posix_kernels()
    ensures { (enc : Enc) (patterns : List Pattern) (tnfa : Tnfa) (word other : List ℕ) → IsTnfaOf enc patterns tnfa
        → AllClassesFit enc (terms_of patterns) → word ≢ [] → other ≢ []
        → (ranks_after tnfa (terms_of patterns) word ≡ ranks_after tnfa (terms_of patterns) other)
        ↔ IsSameKernel enc (terms_of patterns) (map cut_of (posix_kernel_after tnfa (terms_of patterns) word))
        (map cut_of (posix_kernel_after tnfa (terms_of patterns) other)) }
{}

/// The places and numbers after one more unit, and from which place and by which walk each comes, are found from the places and
/// numbers before it alone.
pub fn posix_steps_go_by_places_and_numbers()
    ensures ranks { (tnfa : Tnfa) (rules : List Term) (word : List ℕ) (unit : ℕ)
        → ranks_after tnfa rules (word ++ unit ∷ []) ≡ ranks_step tnfa rules (ranks_after tnfa rules word) unit }
    ensures entries { (tnfa : Tnfa) (rules : List Term) (word : List ℕ) (unit : ℕ)
        → posix_kernel_after tnfa rules (word ++ unit ∷ [])
        ≡ entries_by tnfa rules (posix_kernel_after tnfa rules word) unit
        (posix_segments tnfa rules (ranks_after tnfa rules word) unit) }
{}

/// Words after which different places and numbers are kept have different kernels: where these are too many, the rules have too many
/// kernels. Where nothing else is kept after any word, the rules have too many kernels only then.
pub fn ranks_are_counted()
    ensures many { (enc : Enc) (patterns : List Pattern) (tnfa : Tnfa) (words : List (List ℕ)) → IsTnfaOf enc patterns tnfa
        → AllClassesFit enc (terms_of patterns) → HaveDifferentRanks enc (terms_of patterns) tnfa words
        → AreTooManyRanks enc (terms_of patterns) tnfa words → HasTooManyPosixKernels enc (terms_of patterns) }
    ensures all { (enc : Enc) (patterns : List Pattern) (tnfa : Tnfa) (words : List (List ℕ)) → IsTnfaOf enc patterns tnfa
        → AllClassesFit enc (terms_of patterns) → HaveDifferentRanks enc (terms_of patterns) tnfa words
        → HaveAllRanks enc (terms_of patterns) tnfa words
        → HasTooManyPosixKernels enc (terms_of patterns) ↔ AreTooManyRanks enc (terms_of patterns) tnfa words }
{}

/// What the front of a place and more symbols leave in a tag is what the value that is kept beside the place and these symbols do:
/// for the last event of the tag, and for all its events.
pub fn posix_values_are_kept()
    ensures last { (enc : Enc) (patterns : List Pattern) (tnfa : Tnfa) (word : List ℕ) (tag from : ℕ) (entry : Entry) (rest : List Symbol)
        → IsTnfaOf enc patterns tnfa → AllClassesFit enc (terms_of patterns)
        → IsNth (posix_kernel_after tnfa (terms_of patterns) word) from entry
        → last_event tag 0 None (entry.front ++ rest)
        ≡ last_event tag (length word) (value_at None (posix_last_values_after tnfa (terms_of patterns) word tag) from) rest }
    ensures all { (enc : Enc) (patterns : List Pattern) (tnfa : Tnfa) (word : List ℕ) (tag from : ℕ) (entry : Entry) (rest : List Symbol)
        → IsTnfaOf enc patterns tnfa → AllClassesFit enc (terms_of patterns)
        → IsNth (posix_kernel_after tnfa (terms_of patterns) word) from entry
        → all_events tag 0 (entry.front ++ rest)
        ≡ value_at [] (posix_all_values_after tnfa (terms_of patterns) word tag) from ++ all_events tag (length word) rest }
{}

/// The places after one more unit are those to which first segments lead. There are none exactly behind a word that begins no match.
pub fn posix_lists_go_on()
    ensures places { (enc : Enc) (patterns : List Pattern) (tnfa : Tnfa) (word : List ℕ) (unit : ℕ) → IsTnfaOf enc patterns tnfa
        → AllClassesFit enc (terms_of patterns)
        → places (posix_kernel_after tnfa (terms_of patterns) (word ++ unit ∷ []))
        ≡ map (λ (candidate : Candidate). candidate.to)
        (posix_segments tnfa (terms_of patterns) (ranks_after tnfa (terms_of patterns) word) unit) }
    ensures none { (enc : Enc) (patterns : List Pattern) (tnfa : Tnfa) (word : List ℕ) → IsTnfaOf enc patterns tnfa
        → AllClassesFit enc (terms_of patterns) → word ≢ []
        → (posix_kernel_after tnfa (terms_of patterns) word ≡ []) ↔ (BeginsMatch enc (terms_of patterns) word → ⊥) }
{}

/// The number of a place tells its rule. So places whose numbers tell one rule have one owner, and kernels that keep the same are one.
pub fn places_tell_rules()
    ensures kept { (enc : Enc) (patterns : List Pattern) (tnfa : Tnfa) (word : List ℕ) (index : ℕ) (ranked : Ranked)
        → IsTnfaOf enc patterns tnfa → AllClassesFit enc (terms_of patterns)
        → IsNth (ranks_after tnfa (terms_of patterns) word) index ranked → ranked.rule ≡ rule_at (terms_of patterns) ranked.place }
    ensures owner { (enc : Enc) (patterns : List Pattern) (tnfa : Tnfa) (place other : Place) → IsTnfaOf enc patterns tnfa
        → IsInLeaf tnfa place → IsInLeaf tnfa other
        → rule_at (terms_of patterns) (place_number tnfa (2 * place.part) place.rest.0)
        ≡ rule_at (terms_of patterns) (place_number tnfa (2 * other.part) other.rest.0)
        → slice_index tnfa.owners place.part ≡ slice_index tnfa.owners other.part }
    ensures kernel { (enc : Enc) (patterns : List Pattern) (tnfa : Tnfa) (kernel other : List Kept) (ranks : List Ranked)
        → IsTnfaOf enc patterns tnfa → Keeps tnfa (terms_of patterns) false kernel ranks
        → Keeps tnfa (terms_of patterns) false other ranks → kernel ≡ other }
{}

/// A table of kernels as the code keeps them, each that of a word, and no two the same: where it is too large, the rules have too many
/// kernels, and where it is whole and not too large, they have not.
pub fn tables_are_counted()
    ensures many { (enc : Enc) (patterns : List Pattern) (tnfa : Tnfa) (kernels : List (List Kept)) → IsTnfaOf enc patterns tnfa
        → AllClassesFit enc (terms_of patterns) → AreReached enc (terms_of patterns) tnfa kernels
        → slice_get kernels 0 ≡ Some start_kernel → AllPairs (λ list other. list ≢ other) kernels → AreMany kernels
        → HasTooManyPosixKernels enc (terms_of patterns) }
    ensures few { (enc : Enc) (patterns : List Pattern) (tnfa : Tnfa) (kernels : List (List Kept)) → IsTnfaOf enc patterns tnfa
        → AllClassesFit enc (terms_of patterns) → AreReached enc (terms_of patterns) tnfa kernels
        → slice_get kernels 0 ≡ Some start_kernel → AllPairs (λ list other. list ≢ other) kernels
        → kept_kernels.AreClosed enc (terms_of patterns) tnfa kernels
        → length kernels ≤ KERNEL_LIMIT → sum_by length kernels ≤ PLACE_LIMIT
        → HasTooManyPosixKernels enc (terms_of patterns) → ⊥ }
{}
