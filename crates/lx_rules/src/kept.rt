//! Rules as they are kept.
ghost use Rattle.std.specs.Prelude.{◌≡◌};
ghost use Rattle.lx_regex.specs.Pattern.{is_end};
ghost use Rattle.lx_rules.specs.Items.{is_default};

use crate::conditions::{Conds, Running};
use lx_base::Pos;
use lx_exprs::tags::SharedTags;
use lx_regex::{Expr, Kind};

/// What is kept of a rule.
pub(crate) struct KeptRule {
    /// Its number, which is its place in the block, from 1.
    pub number: u32,
    /// Its conditions.
    pub conds: Conds,
    pub kind: Kind,
    /// Where its head stands.
    pub at: Pos,
    /// Where its target stands, if it has one.
    pub target: Option<Pos>,
    /// Its size; 2^40 stands for itself and for more.
    pub size: u64,
    /// Its nesting; 2^40 stands for itself and for more.
    pub nesting: u64,
    /// Its tags, in order. They are shared with definitions that have these of it.
    pub tags: SharedTags,
    /// How many groups it has, the whole match among them; 2^40 stands for itself and for more.
    pub groups: u64,
    /// How many tags it has, two for each group but the whole match; 2^40 stands for itself and for more.
    pub count: u64,
    /// The number of the tag of its trailing context, if it has one; 2^40 stands for itself and for more.
    pub slash: Option<u64>,
    /// Its expression. There is none where the rules of each of its conditions are past a limit.
    pub expr: Option<Expr>,
}

impl Drop for KeptRule {
    fn drop(self) {
        let Self {
            number: _,
            conds: _,
            kind: _,
            at: _,
            target: _,
            size: _,
            nesting: _,
            tags: _,
            groups: _,
            count: _,
            slash: _,
            expr: _,
        } = self;
    }
}

impl KeptRule {
    ghost use Rattle.std.specs.Prelude.{◌≡◌};
    ghost use Rattle.lx_rules.specs.Finishing.{weight_of};

    /// How far it goes.
    pub fn weight(&self) -> Running
        ensures { result ≡ weight_of self.now }
    {
        Running {
            size: self.size,
            nesting: self.nesting,
            tags: self.count,
        }
    }
}

/// Whether it is the rule `*`.
pub(crate) fn is_default(kind: Kind) -> bool
    ensures { result ≡ is_default kind }
{
    matches!(kind, Kind::Default)
}

/// Whether it is the rule `$`.
pub(crate) fn is_end(kind: Kind) -> bool
    ensures { result ≡ is_end kind }
{
    matches!(kind, Kind::Eof)
}
