//! The rule at the end of the input, and the cursor behind a match.
ghost use Rattle.std.specs.Prelude.{◌≡◌, map, option_copied};
ghost use Rattle.std.specs.Option.{option_map};
ghost use Rattle.lx_cover.specs.Cursors.{cursor_at, end_at, offset_in, slash_of};
ghost use Rattle.lx_cover.specs.Matches.{value_of};

use crate::values::TagValue;
use lx_regex::Rule;
use lx_rules::end_rule;

/// The number of the rule `$`, if there is one and the word is empty.
pub(crate) fn end_at(rules: &[Rule], word: &[u32]) -> Option<u32>
    ensures { result ≡ end_at rules.now word.now }
{
    if word.is_empty() {
        end_rule(rules)
    } else {
        None
    }
}

/// The tag of the trailing context of the first rule with a number, if it has one.
pub(crate) fn slash_of(rules: &[Rule], number: u32) -> Option<u32>
    ensures { result ≡ slash_of rules.now number }
{
    for rule in rules {
        if rule.number == number {
            return rule.slash;
        }
    }
    None
}

/// The offset that a value holds, and else the end.
fn offset_in(value: Option<&TagValue>, end: u64) -> u64
    ensures { result ≡ offset_in (option_map value_of (option_copied value.entry)) end }
{
    match value {
        Some(TagValue::Single(Some(offset))) => *offset,
        _ => end,
    }
}

/// The end of the match, or the value of the tag of its trailing context.
pub(crate) fn cursor_at(slash: Option<u32>, values: &[TagValue], end: u64) -> u64
    ensures { result ≡ cursor_at slash (map value_of values.now) end }
{
    match slash {
        None => end,
        Some(number) => offset_in(values.get(number as usize), end),
    }
}
