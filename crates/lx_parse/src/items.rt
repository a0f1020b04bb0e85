//! The items of a block.
use lx_base::Sequence;

/// An item of a block. All numbers are places in the list of the block's tokens, counted from 0.
#[derive(Clone, Copy, Debug, PartialEq, Eq)]
pub enum Item {
    /// `name = expression;`
    Define {
        /// The defined name.
        name: u32,
        /// The first token of the expression.
        from: u32,
        /// The place behind the last token of the expression.
        until: u32,
    },
    /// `re2c:word = value;`
    Configure {
        /// The configuration word.
        name: u32,
        /// The number, the name or the string.
        value: u32,
    },
    /// A rule: a list of conditions if it has one, a head, and an action or a target.
    Rule {
        /// The first token of the rule: the `<` of its list, or that of its head.
        first: u32,
        /// The first token of the head.
        head: u32,
        /// The `/` before the trailing context.
        slash: Option<u32>,
        /// The place behind the last token of the head.
        until: u32,
        /// The name of the condition that follows.
        goes: Option<u32>,
        /// The action, which a rule with `:=>` lacks.
        code: Option<u32>,
    },
    /// The format, or the separator, of a directive.
    Text {
        /// The string.
        value: u32,
    },
}

/// The items of a block, in order.
#[derive(Drop)]
pub struct BlockTree {
    pub items: Sequence<Item>,
}
