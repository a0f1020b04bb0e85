//! The rules of a scanner.
use crate::expr::Expr;
use lx_base::{ByteText, Sequence};

/// What kind of rule one is.
#[derive(Clone, Copy, PartialEq, Eq)]
pub enum Kind {
    /// A rule with an expression of its own.
    Plain,
    /// The rule `*`, which matches any one code unit and stands last in its scanner.
    Default,
    /// The rule `$`, which matches at the end of the input. It has no expression: its `expr` is `Empty`, and counts for
    /// nothing.
    Eof,
}

/// A tag of a rule. Its number is its place among the rule's tags.
#[derive(Drop)]
pub struct Tag {
    /// The name under which its value is given; empty for the tag of a trailing context.
    pub name: ByteText,
    /// Whether all its values are kept, in order (an m-tag), or the last one alone (an s-tag).
    pub many: bool,
}

/// A rule of a scanner.
///
/// Behind its tags, the ends of its groups have numbers too: where it has `n` tags, group `k` opens at number
/// `n + 2 * k` and closes at `n + 2 * k + 1`.
#[derive(Drop)]
pub struct Rule {
    /// The rule's place in its block, from 1.
    pub number: u32,
    pub kind: Kind,
    /// What the rule matches, its trailing context included.
    pub expr: Expr,
    pub tags: Sequence<Tag>,
    /// The number of the tag that stands where the trailing context begins, if there is one.
    pub slash: Option<u32>,
    /// How many groups the rule has, the whole match among them; 0 without captures.
    pub groups: u32,
}

/// The rules of one scanner, in their order: of those that match the longest word the first one is taken.
#[derive(Drop)]
pub struct RuleSet {
    pub rules: Sequence<Rule>,
}
