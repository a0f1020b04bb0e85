//! Whether rules are those of another list, but for their numbers.
ghost use Rattle.std.specs.Prelude.{◌≡◌, IfSome, IsTrue, map};
ghost use Rattle.lx_auto.specs.Live.{AllInterfere, EachTargetIsRead};
ghost use Rattle.lx_auto.specs.ToldApart.{AllAreToldApart};
ghost use Rattle.lx_base.specs.declared.settings.Enc.{Enc};
ghost use Rattle.lx_regex.specs.Kinds.{kinds_of};
ghost use Rattle.lx_regex.specs.Order.{Policy};
ghost use Rattle.lx_regex.specs.Pattern.{pattern_of, patterns_of, terms_of};
ghost use Rattle.lx_regex.specs.declared.rules.Tag.{Tag as TagValue};
ghost use Rattle.lx_renumber.specs.Renumbered.{kinds_in, renumbered, renumbered_pattern};
ghost use Rattle.lx_tdfa.specs.Promise.{IsAutoUnder};

use crate::expressions::is_same;
use lx_auto::Auto;
use lx_regex::{Rule, Tag};

/// Whether tags are of the same sorts, whatever their names.
fn have_same_sorts(before: &[Tag], tags: &[Tag]) -> bool
    ensures { IsTrue result → map (λ (tag : TagValue). tag.many) tags.now ≡ map (λ (tag : TagValue). tag.many) before.now }
{
    if before.len() != tags.len() {
        return false;
    }
    for (place, tag) in before.iter().enumerate() {
        if tag.many != tags[place].many {
            return false;
        }
    }
    true
}

/// Whether a rule is another one, but for its number, which is greater by so much.
fn is_renumbered(before: &Rule, rule: &Rule, by: u32) -> bool
    ensures pattern { IsTrue result → pattern_of rule.now ≡ renumbered_pattern by (pattern_of before.now) }
    ensures kinds { IsTrue result → kinds_of rule.now.expr ≡ kinds_of before.now.expr }
{
    if rule.kind != before.kind {
        return false;
    }
    if rule.slash != before.slash {
        return false;
    }
    if rule.groups != before.groups {
        return false;
    }
    if u64::from(rule.number) != u64::from(before.number) + u64::from(by) {
        return false;
    }
    if !have_same_sorts(before.tags.as_slice(), rule.tags.as_slice()) {
        return false;
    }
    is_same(&before.expr, &rule.expr)
}

/// By how much the number of the first rule is greater; nothing where it is less.
fn first_difference(before: &[Rule], rules: &[Rule]) -> Option<u32> {
    match (before.first(), rules.first()) {
        (Some(before), Some(rule)) => rule.number.checked_sub(before.number),
        _ => Some(0),
    }
}

/// By how much the numbers of rules are greater than those of others, where the rules are those but for that. `None` where they are
/// not so. It takes no memory.
///
/// Then the automaton of the rules before, with numbers that are greater by so much, serves the rules. The automaton is here for the
/// clauses alone.
pub fn difference(before: &[Rule], auto: &Auto, rules: &[Rule]) -> Option<u32>
    ensures patterns { IfSome result (λ by. patterns_of rules.now ≡ map (renumbered_pattern by) (patterns_of before.now)) }
    ensures kinds { IfSome result (λ by. kinds_in rules.now ≡ kinds_in before.now) }
    ensures promised { (policy : Policy) (enc : Enc) → IsAutoUnder policy enc (patterns_of before.now) auto.now
        → IfSome result (λ by. IsAutoUnder policy enc (patterns_of rules.now) (renumbered by auto.now)) }
    ensures terms { IfSome result (λ by. terms_of (patterns_of rules.now) ≡ terms_of (patterns_of before.now)) }
    ensures apart { AllAreToldApart auto.now → IfSome result (λ by. AllAreToldApart (renumbered by auto.now)) }
    ensures read { EachTargetIsRead auto.now → IfSome result (λ by. EachTargetIsRead (renumbered by auto.now)) }
    ensures interfere { AllInterfere auto.now → IfSome result (λ by. AllInterfere (renumbered by auto.now)) }
{
    let _auto = auto;
    let by = first_difference(before, rules)?;
    if before.len() != rules.len() {
        return None;
    }
    for (place, rule) in before.iter().enumerate() {
        if !is_renumbered(rule, &rules[place], by) {
            return None;
        }
    }
    Some(by)
}
