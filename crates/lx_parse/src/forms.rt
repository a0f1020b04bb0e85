//! What the bodies of blocks hold.
ghost use Rattle.std.specs.Prelude.{◌≡◌};
ghost use Rattle.lx_parse.specs.Blocks.{form_of};

use lx_base::BlockKind;

/// What a body may hold from a place on.
#[derive(Clone, Copy, PartialEq, Eq)]
pub(crate) enum Form {
    /// Items, up to the end.
    Items,
    /// The format of a directive, and then maybe its separator.
    Format,
    /// Maybe the separator of a directive.
    Separator,
    /// Nothing more.
    Nothing,
}

/// What the body of a block holds.
pub(crate) fn form_of(block: BlockKind) -> Form
    ensures { result ≡ form_of block }
{
    match block {
        BlockKind::Code | BlockKind::Rules | BlockKind::Use => Form::Items,
        BlockKind::Stags | BlockKind::Mtags => Form::Format,
        _ => Form::Nothing,
    }
}
