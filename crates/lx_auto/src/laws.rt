//! What holds of automata and their runs. Each law is the contract of a function that does nothing.
ghost use Rattle.std.specs.Prelude.{◌≡◌, ◌↔◌, ℕ, ◌<◌, ◌≤◌, List, [], ◌∷◌, ◌++◌, length, Contains, Some, Bool, true};
ghost use Rattle.lx_auto.specs.Automaton.{IsAuto, edge_on, state_of};
ghost use Rattle.lx_auto.specs.Bank.{Bank, bank_after, history_added, read};
ghost use Rattle.lx_auto.specs.Effects.{Names, composed, effect_of, effect_of_both, same_names, value_of};
ghost use Rattle.lx_auto.specs.Live.{IsClosed, IsLive};
ghost use Rattle.lx_auto.specs.Points.{IsReached, Point};
ghost use Rattle.lx_auto.specs.Run.{Standing, and_then, at_start, run, step};
ghost use Rattle.lx_auto.specs.SameRun.{HasSameRun};
ghost use Rattle.lx_auto.specs.Shapes.{StaysWithin};
ghost use Rattle.lx_auto.specs.ToldApart.{AreToldApart};
ghost use Rattle.lx_auto.specs.Translations.{IsNameOfLive, IsTranslation};
ghost use Rattle.lx_auto.specs.declared.automaton.Auto.{Auto};
ghost use Rattle.lx_auto.specs.declared.automaton.Edge.{Edge};
ghost use Rattle.lx_auto.specs.declared.automaton.Held.{Held};
ghost use Rattle.lx_auto.specs.declared.ops.Op.{Op};
ghost use Rattle.lx_auto.specs.declared.ops.Op.TheVariants.{Copy, MCopy};

/// The edge on a unit out of a state is the one edge of the state whose range has the unit.
pub fn one_edge_is_on_a_unit()
    ensures { (auto : Auto) (state unit : ℕ) (edge : Edge) → IsAuto auto
        → (edge_on (state_of auto.states state).edges unit ≡ Some edge)
        ↔ (Contains (state_of auto.states state).edges edge × (edge.lo ≤ unit) × (unit ≤ edge.hi)) }
{}

/// The run on a word is the run on its front, and then one more step.
pub fn runs_go_on_by_steps()
    ensures { (auto : Auto) (standing : Standing) (front : List ℕ) (unit : ℕ)
        → run auto standing (front ++ unit ∷ []) ≡ and_then (run auto standing front) (λ behind. step auto behind unit) }
{}

/// Where a run from the start of a match stands, there is a state, and the history of m-register 0 is empty.
pub fn runs_stay_within_the_automaton()
    ensures { (auto : Auto) (offset : ℕ) (word : List ℕ) (behind : Standing) → IsAuto auto
        → run auto (at_start offset) word ≡ Some behind → (behind.state < length auto.states) × (behind.bank.mregs 0 ≡ []) }
{}

/// An automaton runs as itself; and where it runs as another, it runs as all that the other runs as.
pub fn same_runs_go_through()
    ensures reflexive { (auto : Auto) → HasSameRun auto auto }
    ensures transitive { (auto middle given : Auto) → HasSameRun auto middle → HasSameRun middle given → HasSameRun auto given }
{}

/// An automaton stays within itself; and what stays within something stays within all that this stays within.
pub fn staying_within_goes_through()
    ensures itself { (auto : Auto) → StaysWithin auto auto }
    ensures through { (given middle answer : Auto) → StaysWithin given middle → StaysWithin middle answer → StaysWithin given answer }
{}

/// No word tells a state apart from itself, and a word that tells two states apart does so in either order.
pub fn states_are_told_apart_in_either_order()
    ensures itself { (auto : Auto) (state : ℕ) (word : List ℕ) → AreToldApart auto state state word → ⊥ }
    ensures turned { (auto : Auto) (state other : ℕ) (word : List ℕ) → AreToldApart auto state other word
        → AreToldApart auto other state word }
{}

/// A copy at the end of a list gives what was held before the list acts; into an m-register it comes before all that the list
/// puts at its end.
pub fn copies_read_what_was_held()
    ensures values { (bank : Bank) (offset : ℕ) (ops : List Op) (target source : ℕ)
        → (bank_after offset (ops ++ Copy target source ∷ []) bank).regs target ≡ bank.regs source }
    ensures histories { (bank : Bank) (offset : ℕ) (ops : List Op) (target source : ℕ)
        → (bank_after offset (ops ++ MCopy target source ∷ []) bank).mregs target ≡ bank.mregs source ++ history_added offset ops target }
{}

/// What a register holds behind a list is what the effect of the list on it gives; and so it is with two lists, one behind the
/// other at one offset.
pub fn effects_give_what_lists_leave()
    ensures one { (offset : ℕ) (ops : List Op) (bank : Bank) (held : Held)
        → read (bank_after offset ops bank) held ≡ value_of offset bank (effect_of ops held) }
    ensures both { (offset : ℕ) (first second : List Op) (bank : Bank) (held : Held)
        → read (bank_after offset second (bank_after offset first bank)) held ≡ value_of offset bank (effect_of_both first second held) }
{}

/// An automaton that is a translation of another one runs as that one.
pub fn translations_have_the_same_run()
    ensures { (given answer : Auto) (names : ℕ → Names) → IsTranslation given answer names → HasSameRun answer given }
{}

/// An automaton is a translation of itself by its own names; and a translation of a translation is one of what that translates.
pub fn translations_go_through()
    ensures itself { (auto : Auto) → IsTranslation auto auto (λ state. same_names) }
    ensures through { (given middle answer : Auto) (first second : ℕ → Names) → IsTranslation given middle first
        → IsTranslation middle answer second → IsTranslation given answer (λ state. composed (first state) (second state)) }
{}

/// A translation has the points of the automaton that it translates, and live there are the names of what is live in that one.
pub fn translations_keep_what_is_live()
    ensures points { (given answer : Auto) (names : ℕ → Names) (point : Point) → IsTranslation given answer names
        → IsReached answer point ↔ IsReached given point }
    ensures live { (given answer : Auto) (names : ℕ → Names) (point : Point) (held : Held) → IsTranslation given answer names
        → IsReached given point → IsLive answer point held ↔ IsNameOfLive given names point held }
{}

/// The live registers are the least set that is closed as they are.
pub fn live_registers_are_the_least_closed_set()
    ensures closed { (auto : Auto) → IsClosed auto (IsLive auto) }
    ensures least { (auto : Auto) (needed : Point → Held → Bool) (point : Point) (held : Held)
        → IsClosed auto (λ point held. needed point held ≡ true) → IsReached auto point → IsLive auto point held
        → needed point held ≡ true }
{}
