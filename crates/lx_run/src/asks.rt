//! What the statements of a piece ask for.
ghost use Rattle.std.specs.Prelude.{◌≡◌, ◌||◌, [], ◌∷◌, max};
ghost use Rattle.std.specs.List.{list_any};
ghost use Rattle.lx_ccode.specs.Statements.{all_statements, is_need, is_state, is_try};
ghost use Rattle.lx_run.specs.Streams.{most_needed};

use lx_ccode::{CodeBlock, Stmt};

/// What statements ask for at the end of a buffer.
#[derive(Clone, Copy)]
pub struct Asks {
    /// Whether one asks for a number of units.
    pub need: bool,
    /// The greatest such number.
    pub most: u32,
    /// Whether one asks for units, however many.
    pub tries: bool,
    /// Whether one stores a state.
    pub states: bool,
}

/// What the statement asks for, and what was asked for before.
fn asks_and(before: Asks, statement: &Stmt) -> Asks
    ensures need { result.need ≡ (before.need || is_need statement.now) }
    ensures most { result.most ≡ max before.most (most_needed (statement.now ∷ [])) }
    ensures tries { result.tries ≡ (before.tries || is_try statement.now) }
    ensures states { result.states ≡ (before.states || is_state statement.now) }
{
    let mut asks = before;
    match statement {
        Stmt::Need(units) => {
            asks.need = true;
            asks.most = asks.most.max(*units);
        }
        Stmt::Try(_) => asks.tries = true,
        Stmt::State(_) => asks.states = true,
        _ => {}
    }
    asks
}

/// What the statements ask for, and what was asked for before.
fn asks_behind(before: Asks, statements: &[Stmt]) -> Asks
    ensures need { result.need ≡ (before.need || list_any is_need statements.now) }
    ensures most { result.most ≡ max before.most (most_needed statements.now) }
    ensures tries { result.tries ≡ (before.tries || list_any is_try statements.now) }
    ensures states { result.states ≡ (before.states || list_any is_state statements.now) }
{
    let mut asks = before;
    for statement in statements {
        asks = asks_and(asks, statement);
    }
    asks
}

/// What the statements of blocks ask for.
pub fn asks_of(blocks: &[CodeBlock]) -> Asks
    ensures need { result.need ≡ list_any is_need (all_statements blocks.now) }
    ensures most { result.most ≡ most_needed (all_statements blocks.now) }
    ensures tries { result.tries ≡ list_any is_try (all_statements blocks.now) }
    ensures states { result.states ≡ list_any is_state (all_statements blocks.now) }
{
    let mut asks = Asks {
        need: false,
        most: 0,
        tries: false,
        states: false,
    };
    for block in blocks {
        asks = asks_behind(asks, block.stmts.as_slice());
    }
    asks
}
