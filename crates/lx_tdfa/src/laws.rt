//! What holds of the lists of places that are computed for words, and of automata of rule lists. Each law is the contract of a
//! function that does nothing.
ghost use Rattle.std.specs.Prelude.{◌≡◌, ◌≢◌, ◌++◌, ◌↔◌, ◌<◌, ℕ, List, [], ◌∷◌, Option, None, Some, Bool, true, false, length, map};
ghost use Rattle.lx_regex.specs.ClassLimits.{AllClassesFit};
ghost use Rattle.lx_auto.specs.Automaton.{IsAuto};
ghost use Rattle.lx_auto.specs.SameRun.{HasSameRun};
ghost use Rattle.lx_auto.specs.Shapes.{StaysWithin};
ghost use Rattle.lx_auto.specs.declared.automaton.Auto.{Auto};
ghost use Rattle.lx_base.specs.declared.settings.Enc.{Enc};
ghost use Rattle.lx_regex.specs.Automaton.{automaton};
ghost use Rattle.lx_regex.specs.Cut.{BeginsMatch, Precedes, rule_part};
ghost use Rattle.lx_regex.specs.Kernel.{IsKernel, SamePlaces};
ghost use Rattle.lx_regex.specs.Order.{Policy, greedy};
ghost use Rattle.lx_regex.specs.Pattern.{Pattern, terms_of};
ghost use Rattle.lx_regex.specs.Script.{script};
ghost use Rattle.lx_regex.specs.Term.{Term};
ghost use Rattle.lx_regex.specs.Values.{all_events, last_event};
ghost use Rattle.lx_tnfa.specs.LeafReadings.{IsNth};
ghost use Rattle.lx_tnfa.specs.Tnfa.{IsTnfaOf, Tnfa};
ghost use Rattle.lx_tdfa.specs.Accepts.{Accepts, IsAccepted, accept_after};
ghost use Rattle.lx_tdfa.specs.Graph.{path_symbols};
ghost use Rattle.lx_tdfa.specs.Kernels.{Entry, cut_of, kernel_after, places, places_step, rule_of};
ghost use Rattle.lx_tdfa.specs.Promise.{FitsRules, IsAutoUnder};
ghost use Rattle.lx_tdfa.specs.Searches.{AreApart, IsSearched, IsTrace, Trace, walk, word_at};
ghost use Rattle.lx_tdfa.specs.Values.{all_values_after, last_values_after, value_at};
ghost use Rattle.lx_tdfa.specs.Words.{ComesBefore, IsNoLater};

/// The list after a word is the kernel of the word: for each place of its cuts, once, the first cut there, in their order.
pub fn kernels_are_listed()
    ensures { (enc : Enc) (patterns : List Pattern) (tnfa : Tnfa) (word : List ℕ) → IsTnfaOf enc patterns tnfa
        → AllClassesFit enc (terms_of patterns) → word ≢ []
        → IsKernel Precedes enc (terms_of patterns) word (map cut_of (kernel_after tnfa (terms_of patterns) word)) }
{}

/// The list after a word is empty exactly where the word begins no match.
pub fn empty_lists_begin_no_match()
    ensures { (enc : Enc) (patterns : List Pattern) (tnfa : Tnfa) (word : List ℕ) → IsTnfaOf enc patterns tnfa
        → AllClassesFit enc (terms_of patterns) → word ≢ []
        → (kernel_after tnfa (terms_of patterns) word ≡ []) ↔ (BeginsMatch enc (terms_of patterns) word → ⊥) }
{}

/// The lists after two words have the same numbers of places exactly where the kernels of the words have the same places.
pub fn equal_lists_are_equal_kernels()
    ensures { (enc : Enc) (patterns : List Pattern) (tnfa : Tnfa) (word other : List ℕ) → IsTnfaOf enc patterns tnfa
        → AllClassesFit enc (terms_of patterns) → word ≢ [] → other ≢ []
        → (places (kernel_after tnfa (terms_of patterns) word) ≡ places (kernel_after tnfa (terms_of patterns) other))
        ↔ SamePlaces enc (terms_of patterns) (map cut_of (kernel_after tnfa (terms_of patterns) word))
        (map cut_of (kernel_after tnfa (terms_of patterns) other)) }
{}

/// The places after one more unit are found from the places before it alone.
pub fn steps_go_by_places()
    ensures { (tnfa : Tnfa) (rules : List Term) (word : List ℕ) (unit : ℕ)
        → places (kernel_after tnfa rules (word ++ unit ∷ [])) ≡ places_step tnfa rules (places (kernel_after tnfa rules word)) unit }
{}

/// What the list after a word accepts: nothing where no rule has a tree for the word; else the first rule that has one, by a way
/// that makes the front of one of the places to the script of this rule's leftmost greedy least tree.
pub fn first_rules_are_accepted()
    ensures { (enc : Enc) (patterns : List Pattern) (tnfa : Tnfa) (word : List ℕ) → IsTnfaOf enc patterns tnfa
        → AllClassesFit enc (terms_of patterns)
        → Accepts greedy enc (terms_of patterns) word (kernel_after tnfa (terms_of patterns) word) (accept_after tnfa (terms_of patterns) word) }
{}

/// The last event of a tag in the tree that is accepted is that in the way from a place to the end, or if there is none the value
/// that was kept beside the place.
pub fn last_values_are_kept()
    ensures { (enc : Enc) (patterns : List Pattern) (tnfa : Tnfa) (word : List ℕ) (tag from : ℕ) (way : List ℕ) (entry : Entry)
        → IsTnfaOf enc patterns tnfa → AllClassesFit enc (terms_of patterns) → IsNth (kernel_after tnfa (terms_of patterns) word) from entry
        → (accepted : IsAccepted greedy enc (terms_of patterns) word (rule_of entry.keys)
        (entry.front ++ path_symbols (automaton (terms_of patterns)) entry.place way []))
        → last_event tag 0 None (script enc (rule_part (terms_of patterns) (rule_of entry.keys)) accepted.tree)
        ≡ last_event tag (length word) (value_at None (last_values_after tnfa (terms_of patterns) word tag) from)
        (path_symbols (automaton (terms_of patterns)) entry.place way []) }
{}

/// All events of a tag in the tree that is accepted are those that were kept beside a place, and then those in the way from it to
/// the end.
pub fn all_values_are_kept()
    ensures { (enc : Enc) (patterns : List Pattern) (tnfa : Tnfa) (word : List ℕ) (tag from : ℕ) (way : List ℕ) (entry : Entry)
        → IsTnfaOf enc patterns tnfa → AllClassesFit enc (terms_of patterns) → IsNth (kernel_after tnfa (terms_of patterns) word) from entry
        → (accepted : IsAccepted greedy enc (terms_of patterns) word (rule_of entry.keys)
        (entry.front ++ path_symbols (automaton (terms_of patterns)) entry.place way []))
        → all_events tag 0 (script enc (rule_part (terms_of patterns) (rule_of entry.keys)) accepted.tree)
        ≡ value_at [] (all_values_after tnfa (terms_of patterns) word tag) from
        ++ all_events tag (length word) (path_symbols (automaton (terms_of patterns)) entry.place way []) }
{}

/// An automaton that runs as one of a rule list is one of this rule list too, if its states fit the rules.
pub fn same_runs_are_of_one_list()
    ensures { (policy : Policy) (enc : Enc) (patterns : List Pattern) (auto given : Auto) → IsAutoUnder policy enc patterns given
        → HasSameRun auto given → FitsRules enc patterns auto → IsAutoUnder policy enc patterns auto }
{}

/// So is one that runs as it and stays within it: with no unit on an edge and no accept that the other has not.
pub fn what_stays_within_is_of_one_list()
    ensures { (policy : Policy) (enc : Enc) (patterns : List Pattern) (auto given : Auto) → IsAutoUnder policy enc patterns given
        → IsAuto auto → HasSameRun auto given → StaysWithin given auto → IsAutoUnder policy enc patterns auto }
{}

/// The places of a breadth-first search in unit order stand in the order of their words, and a place's word is that of its parent
/// and the unit. Each leads to the place's state; and at the end of the search it is the least that does. Of the words that end in
/// a good unit, the first is that of the first place whose state has one, and the least one there.
pub fn searches_find_least_words()
    ensures ascend { (step : ℕ → ℕ → Option ℕ) (trace : Trace) (place other : ℕ) → IsTrace step trace → place < other
        → other < trace.count → ComesBefore (word_at trace place) (word_at trace other) }
    ensures parents { (step : ℕ → ℕ → Option ℕ) (trace : Trace) (place : ℕ) → IsTrace step trace → 0 < place → place < trace.count
        → word_at trace place ≡ word_at trace (trace.parent place) ++ trace.unit place ∷ [] }
    ensures lead { (step : ℕ → ℕ → Option ℕ) (trace : Trace) (place : ℕ) → IsTrace step trace → place < trace.count
        → walk step 0 (word_at trace place) ≡ Some (trace.state place) }
    ensures least { (step : ℕ → ℕ → Option ℕ) (trace : Trace) (place : ℕ) (word : List ℕ) → IsSearched step trace
        → AreApart step trace → place < trace.count → walk step 0 word ≡ Some (trace.state place)
        → IsNoLater (word_at trace place) word }
    ensures first { (step : ℕ → ℕ → Option ℕ) (trace : Trace) (good : (state unit : ℕ) → Bool) (place unit : ℕ) (front : List ℕ) (last state : ℕ)
        → IsSearched step trace → place < trace.count
        → ((earlier other : ℕ) → earlier < place → good (trace.state earlier) other ≡ false)
        → ((other : ℕ) → other < unit → good (trace.state place) other ≡ false)
        → walk step 0 front ≡ Some state → good state last ≡ true
        → IsNoLater (word_at trace place ++ unit ∷ []) (front ++ last ∷ []) }
{}
