//! What holds of all bodies: each law is the contract of a function with an empty body.
ghost use Rattle.std.specs.Prelude.{◌≡◌, ℕ, ◌⊎◌, List, length};
ghost use Rattle.lx_base.specs.declared.blocks.BlockKind.{BlockKind};
ghost use Rattle.lx_base.specs.declared.faults.Fault.{Fault};
ghost use Rattle.lx_base.specs.declared.places.Pos.{Pos};
ghost use Rattle.lx_parse.specs.Blocks.{IsBody, IsSyntaxFault, form_of};
ghost use Rattle.lx_parse.specs.Places.{EachHasPlaces};
ghost use Rattle.lx_parse.specs.Ranges.{EachHasExpressions};
ghost use Rattle.lx_parse.specs.Sorts.{sorts_of};
ghost use Rattle.lx_parse.specs.declared.items.Item.{Item};
ghost use Rattle.lx_parse.specs.declared.sorts.Sort.{Sort};
ghost use Rattle.lx_token.specs.declared.list.Token.{Token};

/// A body has at most one block tree.
pub fn bodies_have_one_tree()
    ensures { (kind : BlockKind) (sorts : List Sort) (items other : List Item) →
        IsBody (form_of kind) sorts items → IsBody (form_of kind) sorts other → items ≡ other }
{}

/// The expressions of definitions and rules stand in the ranges of tokens that their numbers tell, so each can be read
/// again by itself.
pub fn expressions_stand_in_ranges()
    ensures { (kind : BlockKind) (sorts : List Sort) (items : List Item) →
        IsBody (form_of kind) sorts items → EachHasExpressions sorts items }
{}

/// The places that the items of a body name are those of its tokens, and before each target stands another token.
pub fn items_name_tokens()
    ensures { (kind : BlockKind) (sorts : List Sort) (items : List Item) →
        IsBody (form_of kind) sorts items → EachHasPlaces (length sorts) items }
{}

/// A body of tokens is read, or it is refused at its first token with which no body goes on.
pub fn bodies_are_read_or_refused()
    ensures { (kind : BlockKind) (body : List ℕ) (start : Pos) (tokens : List Token) →
        ((items : List Item) × IsBody (form_of kind) (sorts_of kind body tokens) items)
        ⊎ ((fault : Fault) × IsSyntaxFault kind body start tokens fault) }
{}
