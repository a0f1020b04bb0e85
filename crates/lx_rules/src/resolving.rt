//! Resolves a block.
ghost use Rattle.std.specs.Prelude.{◌≡◌, ◌≢◌, ◌+◌, ◌*◌, ◌≤◌, length, Ok, IfOk, MatchResult};
ghost use Rattle.lx_base.specs.declared.limits.TheConstants.{SOURCE_LIMIT};
ghost use Rattle.lx_base.specs.declared.blocks.BlockKind.TheVariants.{Rules};
ghost use Rattle.lx_base.specs.declared.places.Pos.{Pos};
ghost use Rattle.lx_parse.specs.Blocks.{IsBody, form_of};
ghost use Rattle.lx_parse.specs.Ranges.{EachHasExpressions};
ghost use Rattle.lx_parse.specs.Sorts.{sorts_of};
ghost use Rattle.lx_token.specs.Tokens.{tokens_of};
ghost use Rattle.lx_rules.specs.Blocks.{HasRules, Resolves, StandsUnder, StopsWith};
ghost use Rattle.lx_rules.specs.Conditions.{EachHasConds};
ghost use Rattle.lx_rules.specs.Environments.{Environment};
ghost use Rattle.lx_rules.specs.Items.{State, Goes};
ghost use Rattle.lx_rules.specs.Keeping.{Holds, StopsGoing};
ghost use Rattle.lx_rules.specs.Represents.{Represents};
ghost use Rattle.lx_forms.specs.Lexemes.{lexemes_of, sorts_at};
ghost use Rattle.lx_forms.specs.Seen.{lexemes_view};
ghost use Rattle.lx_rules.specs.FitScanners.{FitsLimits, HasFitDefinitions};
ghost use Rattle.lx_rules.specs.WellFormed.{IsWellFormed};

use crate::environment::Env;
use crate::finishing::finish;
use crate::items::{Block, Known};
use crate::opening::open;
use crate::resolved::Resolved;
use lx_base::{BlockKind, Options, Pos, Stop};
use lx_forms::lexemes::Lexemes;
use lx_parse::{BlockTree, Item, expressions_stand_in_ranges};
use lx_token::{TokenList, tokens_stand_in_order};
use std::alloc::Global;

/// What a block of this kind, with this body, these tokens and these items, resolves to, and what holds behind it.
///
/// A `Code` block leaves its definitions and configurations to the blocks behind it. A `Rules` block is kept, with its rules, for the
/// blocks that use it, and resolves to no scanner. A `Use` block has the items of the last rules block before its own, and leaves
/// nothing; where there is no rules block before it, it is refused at its opener, which stands at `at`.
///
/// It refuses with the first fault of the block: that of its opener, those of its items in their order, and then those that stand at
/// the opener or at a target. `Memory` says that memory is wanting; it may be answered at each block, and no clause ties it to a cause.
///
/// What a block of scanners resolves to is well formed where all blocks before were resolved under these options: so the automata of
/// its scanners can be built, and each rule has its action.
pub fn resolve(
    alloc: Global,
    body: &[u8],
    tokens: &TokenList,
    tree: &BlockTree,
    kind: BlockKind,
    at: Pos,
    env: Env,
    options: &Options,
) -> Result<(Env, Resolved), Stop>
    requires size { length body.now ≤ SOURCE_LIMIT }
    requires tokens { (start : Pos) × (tokens_of body.now start ≡ Ok tokens.now) }
    requires tree { IsBody (form_of kind) (sorts_of kind body.now tokens.now) tree.now.items }
    requires kind { HasRules kind }
    requires env { (environment : Environment) × Represents env environment }
    ensures fit { IfOk result (λ answer. FitsLimits answer.1) }
    ensures well_formed { kind ≢ Rules → (environment : Environment) → Represents env environment → StandsUnder options.now environment
        → IfOk result (λ answer. IsWellFormed options.now answer.1) }
    ensures resolves { (environment : Environment) → Represents env environment → let lexemes = lexemes_of body.now tokens.now in
        MatchResult result
        (λ answer. (after : Environment) × Represents answer.0 after × Resolves options.now kind at environment lexemes tree.now.items after answer.1)
        (StopsWith options.now kind at environment lexemes tree.now.items) }
{
    expressions_stand_in_ranges();
    tokens_stand_in_order();
    let block = Block {
        options,
        lexemes: Lexemes {
            body,
            tokens: tokens.as_slice(),
        },
    };
    let opened = open(alloc, kind, env, at)?;
    let known = take_items(alloc, block, opened, tree.items.as_slice())?;
    finish(alloc, known, kind, options, at)
}

/// Takes the items of a block.
fn take_items(alloc: Global, block: Block<'_>, known: Known, items: &[Item]) -> Result<Known, Stop>
    requires few { length known.acts.items + length items.now ≤ 2 * SOURCE_LIMIT }
    requires short { length block.lexemes.body.now ≤ SOURCE_LIMIT }
    requires expressions { EachHasExpressions (sorts_at (lexemes_view block.lexemes)) items.now }
    requires conds { EachHasConds (lexemes_view block.lexemes) items.now }
    requires fit { HasFitDefinitions known }
    requires holds { (state : State) × Holds known state }
    ensures few { IfOk result (λ after. length after.acts.items ≤ length known.acts.items + length items.now) }
    ensures before { IfOk result (λ after. (after.before ≡ known.before) × (after.is_use ≡ known.is_use)) }
    ensures goes { (first : State) → Holds known first → MatchResult result
        (λ after. (state : State) × Goes block.entry.options.now (lexemes_view block.entry.lexemes) first items.now (Ok state) × Holds after state)
        (StopsGoing block.entry.options.now (lexemes_view block.entry.lexemes) first items.now) }
{
    let mut after = known;
    for item in items {
        after.take(alloc, block, *item)?;
    }
    Ok(after)
}
