//! What is known before the items of a block.
ghost use Rattle.std.specs.Prelude.{◌≡◌, [], IfOk, List, MatchResult, None, ℕ};
ghost use Rattle.lx_base.specs.declared.blocks.BlockKind.TheVariants.{Code, Rules, Use};
ghost use Rattle.lx_exprs.specs.Seen.{IsStop};
ghost use Rattle.lx_rules.specs.Blocks.{HasRules, opening_fault};
ghost use Rattle.lx_rules.specs.Conditions.{cond_names, kept_of};
ghost use Rattle.lx_rules.specs.Environments.{Environment, settings_over};
ghost use Rattle.lx_rules.specs.Opening.{IsOpened};
ghost use Rattle.lx_rules.specs.Represents.{Represents};
ghost use Rattle.lx_rules.specs.Seen.{rules_view, settings_view};

use crate::conditions::Conditions;
use crate::environment::{Env, KeptBlock, Settings};
use crate::items::Known;
use crate::kept::KeptRule;
use crate::resolved::Act;
use lx_base::{BlockKind, Fault, Memory, Pos, Stop};
use lx_exprs::definitions::Definitions;
use lx_shared::SharedText;
use std::alloc::Global;
use std::rc::Rc;

/// Copies of what rules do.
fn act_copies(alloc: Global, acts: &[Act]) -> Result<Vec<Act>, Memory>
    ensures { IfOk result (λ copies. copies.items ≡ acts.now) }
{
    let mut copies = Vec::with_capacity(alloc, acts.len())?;
    for act in acts {
        copies.push(Act {
            number: act.number,
            goes: SharedText::share_option(&act.goes)?,
            code: SharedText::share_option(&act.code)?,
            at: act.at,
        })?;
    }
    Ok(copies)
}

/// The same rules, which are shared.
fn shared_rules(alloc: Global, rules: &Vec<Rc<KeptRule>>) -> Result<Vec<Rc<KeptRule>>, Memory>
    ensures { IfOk result (λ shared. rules_view shared ≡ rules_view rules.now) }
{
    let mut shared = Vec::new(alloc);
    let held = rules.as_slice();
    for rule in held {
        shared.push(rule.clone()?)?;
    }
    Ok(shared)
}

/// What is known before the items of a block that leaves what it knows.
fn open_code(alloc: Global, env: Env) -> Known
    requires { (environment : Environment) × Represents env environment }
    ensures { (environment : Environment) → Represents env environment → IsOpened Code environment result }
{
    let (definitions, settings, kept) = env.into_parts();
    Known {
        before: Env {
            definitions: Definitions::new(alloc),
            settings: Settings::new(alloc),
            kept,
        },
        is_use: false,
        own: definitions,
        settings,
        rules: Vec::new(alloc),
        acts: Vec::new(alloc),
        conds: Conditions::new(alloc),
    }
}

/// What is known before the items of a rules block.
fn open_rules(alloc: Global, env: Env) -> Known
    requires { (environment : Environment) × Represents env environment }
    ensures { (environment : Environment) → Represents env environment → IsOpened Rules environment result }
{
    Known {
        before: env,
        is_use: false,
        own: Definitions::new(alloc),
        settings: Settings::new(alloc),
        rules: Vec::new(alloc),
        acts: Vec::new(alloc),
        conds: Conditions::new(alloc),
    }
}

/// What a block that uses the last rules block takes over of it: its configuration over the one that holds, its rules, what they do, and
/// their conditions. It has no definitions.
fn taken_over(alloc: Global, held: &KeptBlock, settings: &Settings) -> Result<KeptBlock, Memory>
    ensures definitions { IfOk result (λ taken. taken.definitions.by_name.entries ≡ []) }
    ensures settings { IfOk result (λ taken. settings_view taken.settings ≡ settings_over (settings_view held.now.settings) (settings_view settings.now)) }
    ensures rules { IfOk result (λ taken. rules_view taken.rules ≡ rules_view held.now.rules) }
    ensures acts { IfOk result (λ taken. taken.acts.items ≡ held.now.acts.items) }
    ensures names { IfOk result (λ taken. cond_names taken.conds ≡ cond_names held.now.conds) }
    ensures kept { IfOk result (λ taken. (cond : List ℕ) → kept_of taken.conds cond ≡ kept_of held.now.conds cond) }
{
    let settings = held.settings.over(alloc, settings)?;
    let rules = shared_rules(alloc, &held.rules)?;
    let acts = act_copies(alloc, held.acts.as_slice())?;
    let conds = held.conds.copy(alloc)?;
    Ok(KeptBlock {
        definitions: Definitions::new(alloc),
        settings,
        rules,
        acts,
        conds,
    })
}

/// What is known before the items of a block that uses the last rules block.
fn open_use(alloc: Global, env: Env, at: Pos) -> Result<Known, Stop>
    requires { (environment : Environment) × Represents env environment }
    ensures { (environment : Environment) → Represents env environment → MatchResult result
        (λ known. (opening_fault Use at environment.kept ≡ None) × IsOpened Use environment known)
        (IsStop (opening_fault Use at environment.kept)) }
{
    let Some(held) = &env.kept else {
        return Err(Stop::Fault(Fault::NoRulesToUse { at }));
    };
    let taken = taken_over(alloc, held, &env.settings)?;
    Ok(taken.into_known(env))
}

/// What is known before the items of a block of this kind, whose opener stands at this place. A block that uses the last rules
/// block is refused where there is none.
pub(crate) fn open(alloc: Global, kind: BlockKind, env: Env, at: Pos) -> Result<Known, Stop>
    requires kind { HasRules kind }
    requires env { (environment : Environment) × Represents env environment }
    ensures { (environment : Environment) → Represents env environment → MatchResult result
        (λ known. (opening_fault kind at environment.kept ≡ None) × IsOpened kind environment known)
        (IsStop (opening_fault kind at environment.kept)) }
{
    if kind == BlockKind::Rules {
        return Ok(open_rules(alloc, env));
    }
    if kind == BlockKind::Use {
        return open_use(alloc, env, at);
    }
    Ok(open_code(alloc, env))
}
