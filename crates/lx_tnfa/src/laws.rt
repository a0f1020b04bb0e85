//! What holds of places. Each law is the contract of a function that does nothing.
ghost use Rattle.std.specs.Prelude.{◌≡◌, ◌≢◌, ◌↔◌, ℕ, ◌/◌, ◌<◌, List, [], ◌++◌, Some, map, slice_get, slice_index, All, AllPairs};
ghost use Rattle.lx_regex.specs.ClassLimits.{AllClassesFit};
ghost use Rattle.lx_base.specs.declared.settings.Enc.{Enc};
ghost use Rattle.lx_regex.specs.Automaton as spec;
ghost use Rattle.lx_regex.specs.Automaton.{automaton, moves};
ghost use Rattle.lx_regex.specs.Cut.{Cut, EndsInUnit, GoesOn, IsCut, SamePlace};
ghost use Rattle.lx_regex.specs.Pattern.{Pattern, terms_of};
ghost use Rattle.lx_regex.specs.Plain.{IsPlain};
ghost use Rattle.lx_regex.specs.Script.{Symbol};
ghost use Rattle.lx_regex.specs.Term.{Term};
ghost use Rattle.lx_regex.specs.Walk.{Walk, symbols};
ghost use Rattle.lx_tnfa.specs.Closure.{IsClosureOf, IsDead, IsPlainWalk, IsWalk};
ghost use Rattle.lx_tnfa.specs.LeafReadings.{NumbersLeaves};
ghost use Rattle.lx_tnfa.specs.Live.{state_of};
ghost use Rattle.lx_tnfa.specs.Moves.{shown_move};
ghost use Rattle.lx_tnfa.specs.PlainWalks.{VisitsOnce};
ghost use Rattle.lx_tnfa.specs.PlaceNumbers.{number_behind, numbers_after, symbols_added};
ghost use Rattle.lx_tnfa.specs.CutPlaces.{StandsAt};
ghost use Rattle.lx_tnfa.specs.TakenWalks.{GoesOnAt, ReadsAt, Takes, first_events};
ghost use Rattle.lx_tnfa.specs.Tnfa.{IsTnfaOf, Tnfa};
ghost use Rattle.lx_tnfa.specs.declared.closure.Reach.{Reach};
ghost use Rattle.lx_tnfa.specs.declared.closure.Stop.{Stop};
ghost use Rattle.lx_tnfa.specs.declared.closure.Stop.TheVariants.{AtState, AtTarget};
ghost use Rattle.lx_tnfa.specs.declared.closure.Target.{Target};
ghost use Rattle.lx_tnfa.specs.declared.states.Event.{Event};
ghost use Rattle.lx_tnfa.specs.declared.places.Place.{Place};
ghost use Rattle.lx_tnfa.specs.declared.states.State.TheVariants.{Moves};

/// Two cuts, at any words, stand at one place exactly where they stand at one place of the automaton: where part and residual
/// are equal.
pub fn places_are_told_apart()
    ensures { (enc : Enc) (patterns : List Pattern) (tnfa : Tnfa) (word other_word : List ℕ) (cut other : Cut) (place there : Place)
        → IsTnfaOf enc patterns tnfa → IsCut enc (terms_of patterns) word cut → IsCut enc (terms_of patterns) other_word other
        → StandsAt enc (terms_of patterns) tnfa cut place → StandsAt enc (terms_of patterns) tnfa other there
        → SamePlace enc (terms_of patterns) cut other ↔ (place ≡ there) }
{}

/// What goes on from a cut goes on from each cut at its place.
pub fn cuts_at_one_place_go_on_alike()
    ensures { (enc : Enc) (rules : List Term) (cut other : Cut) (rest : List Symbol) → SamePlace enc rules cut other
        → EndsInUnit cut.front → EndsInUnit other.front → GoesOn enc rules cut rest → GoesOn enc rules other rest }
{}

/// Two lists that are closures of the same places are equal.
pub fn closures_are_unique()
    ensures { (tnfa : Tnfa) (places : List Place) (reaches others : List Reach)
        → IsClosureOf tnfa places reaches → IsClosureOf tnfa places others → reaches ≡ others }
{}

/// A state of the automaton that goes on by moves has the same moves in the program: so the walks of closures are over them.
pub fn moves_are_those_of_the_automaton()
    ensures { (enc : Enc) (patterns : List Pattern) (tnfa : Tnfa) (number : ℕ) (ways : List spec.Move) → IsTnfaOf enc patterns tnfa
        → slice_get (automaton (terms_of patterns)) number ≡ Some (moves ways)
        → state_of tnfa.states number ≡ Moves (map shown_move ways) }
{}

/// The automaton of a rule list, of whose classes the encoding has each point, gives numbers to the places within leaves and at
/// their ends. By them each unit is read as in the leaves of the definition, and two places have one number exactly where they
/// are in one leaf, which the same units finish.
pub fn leaves_are_read_as_places()
    ensures { (enc : Enc) (patterns : List Pattern) (tnfa : Tnfa) → IsTnfaOf enc patterns tnfa → AllClassesFit enc (terms_of patterns)
        → NumbersLeaves enc (terms_of patterns) (numbers_after tnfa) (symbols_added tnfa) (number_behind tnfa) }
{}

/// Each cut of a word stands at a place of the automaton of a rule list, of whose classes the encoding has each point.
pub fn cuts_stand_at_places()
    ensures { (enc : Enc) (patterns : List Pattern) (tnfa : Tnfa) (word : List ℕ) (cut : Cut) → IsTnfaOf enc patterns tnfa
        → AllClassesFit enc (terms_of patterns) → IsCut enc (terms_of patterns) word cut
        → (place : Place) × StandsAt enc (terms_of patterns) tnfa cut place }
{}

/// A walk over the automaton of a rule list is plain exactly where it visits no state twice between two units: the
/// trees with plain scripts are those whose walks do so.
pub fn plain_walks_visit_no_state_twice()
    ensures { (enc : Enc) (rules : List Term) (state : ℕ) (walk : Walk (automaton rules) 0 state)
        → IsPlain (symbols enc walk []) ↔ VisitsOnce walk }
{}

/// A walk over the automaton that goes on from a place to the last state, and visits no state twice between two units, is a plain
/// walk of closures until its first unit, or to its end: it has the choices and the tag events of its moves, and comes to each
/// place where the leaf of the unit begins, or to the end of its rule. So a closure, which enters no stop twice, loses no such walk.
pub fn plain_walks_are_those_of_closures()
    ensures { (enc : Enc) (patterns : List Pattern) (tnfa : Tnfa) (places : List Place) (place : Place) (from : ℕ)
        (before choices : List ℕ) (to : Target) (state : ℕ) (walk : Walk (automaton (terms_of patterns)) 0 state)
        → IsTnfaOf enc patterns tnfa → AllClassesFit enc (terms_of patterns) → slice_get places from ≡ Some place
        → GoesOnAt tnfa place before state → VisitsOnce walk → Takes tnfa (slice_index tnfa.owners (state / 2)) walk choices to
        → IsPlainWalk tnfa places (record { from = from; choices = before ++ choices; events = first_events walk; to = to }) }
{}

/// Each walk over the automaton to the last state takes choices until its first unit, by which it comes to a place from which the
/// units of its first code point finish the leaf, or to the end of its rule.
pub fn walks_come_to_their_leaves()
    ensures { (enc : Enc) (patterns : List Pattern) (tnfa : Tnfa) (rule state : ℕ) (walk : Walk (automaton (terms_of patterns)) 0 state)
        → IsTnfaOf enc patterns tnfa → AllClassesFit enc (terms_of patterns)
        → (choices : List ℕ) × (to : Target) × Takes tnfa rule walk choices to × ReadsAt enc tnfa walk to }
{}

/// And each plain walk of closures from a state is until its first unit, or to its end, one over the automaton to the last state
/// that visits no state twice between two units, with its choices and tag events. So closures take no other walks.
pub fn closures_take_plain_walks_alone()
    ensures { (enc : Enc) (patterns : List Pattern) (tnfa : Tnfa) (state : ℕ) (choices : List ℕ) (visited : List Stop) (events : List Event) (to : Target)
        → IsTnfaOf enc patterns tnfa → 0 < state → IsWalk tnfa (AtState state) choices visited events (AtTarget to)
        → AllPairs (λ stop other. stop ≢ other) visited → All (λ stop. ¬ IsDead tnfa stop) visited
        → (walk : Walk (automaton (terms_of patterns)) 0 state) × VisitsOnce walk
        × Takes tnfa (slice_index tnfa.owners (state / 2)) walk choices to × (events ≡ first_events walk) }
{}
