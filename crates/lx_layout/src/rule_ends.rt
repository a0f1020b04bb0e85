//! What the rules of a scanner do at their ends, found by the numbers of the rules.
ghost use Rattle.std.specs.Prelude.{◌≡◌, None, IfOk, MatchOption};
ghost use Rattle.lx_layout.specs.RuleEnds.{AreEndsIndexed, ending_of, endings_of, end_place, no_ending};

use crate::number_index::NumberIndex;
use lx_base::Memory;
use lx_ccode::LineMark;
use lx_regex::Rule;
use lx_shared::SharedText;
use std::alloc::Global;

/// What a rule does at its end.
#[derive(Drop)]
pub struct RuleEnd<'a> {
    pub rule: &'a Rule,
    /// The condition that it goes to.
    pub goes: &'a Option<SharedText>,
    /// Its action, with the braces.
    pub action: &'a Option<SharedText>,
    /// The line where the action stands, where that is told.
    pub line: Option<LineMark>,
}

/// The ends of rules, with their places by the numbers of the rules.
pub struct EndIndex<'a> {
    pub ends: &'a [RuleEnd<'a>],
    pub places: NumberIndex,
}

impl Drop for EndIndex<'_> {
    fn drop(self) {
        let Self { ends: _, places: _ } = self;
    }
}

/// The places of ends by the numbers of their rules; of several with one number the first counts.
pub fn index_of<'a>(alloc: Global, ends: &'a [RuleEnd<'a>]) -> Result<EndIndex<'a>, Memory>
    ensures indexed { IfOk result AreEndsIndexed }
    ensures ends { IfOk result (λ index. index.ends.now ≡ ends.now) }
{
    let mut places = NumberIndex::new(alloc);
    for (place, end) in ends.iter().enumerate() {
        places.note(end.rule.number, place)?;
    }
    Ok(EndIndex { ends, places })
}

impl<'a> EndIndex<'a> {
    /// The end of the rule with a number.
    pub fn find(&self, number: u32) -> Option<&RuleEnd<'a>>
        requires { AreEndsIndexed self.now }
        ensures { MatchOption result
            ((endings_of self.now.ends.now number ≡ no_ending) × (end_place self.now.ends.now number ≡ None))
            (λ end. (endings_of self.now.ends.now number ≡ ending_of end.now) × (end.now.rule.now.number ≡ number)) }
    {
        match self.places.find(number) {
            Some(place) => self.ends.get(place),
            None => None,
        }
    }
}
