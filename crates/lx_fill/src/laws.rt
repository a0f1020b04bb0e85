//! What holds of checks. Each law is the contract of a function that does nothing.
ghost use Rattle.std.specs.Prelude.{◌≡◌, ℕ, ◌-◌, ◌<◌, ◌⊎◌, List, Contains, slice_index};
ghost use Rattle.lx_auto.specs.declared.automaton.Auto.{Auto};
ghost use Rattle.lx_fill.specs.Checks.{AreChecks, Graph, Leads, LeadsUnchecked, Suffices, graph_of};

/// Where so many units suffice from a state that has an edge, there is at least one of them; behind the edge one fewer suffice, unless
/// a number stands there. So a scanner that asked for the number of a state has each unit that it reads up to the next number.
pub fn each_step_takes_one_unit()
    ensures { (graph : Graph) (number : ℕ → ℕ) (state next units : ℕ)
        → Suffices graph number state units → Contains (graph state) next
        → (0 < units) × (number next ≡ 0 → Suffices graph number next (units - 1)) }
{}

/// No cycle without a number is reached from the start.
pub fn reached_cycles_have_checks()
    ensures { (auto : Auto) (checks : List ℕ) (state : ℕ) → AreChecks auto checks
        → (state ≡ 0) ⊎ Leads (graph_of auto) 0 state
        → ¬ LeadsUnchecked (graph_of auto) (slice_index checks) state state }
{}
