//! Definitions by name.
ghost use Rattle.std.specs.Prelude.{◌≡◌, [], ◌∷◌, ◌++◌, None, Some, IfSome, OnOk};
ghost use Rattle.std.specs.Option.{option_map};
ghost use Rattle.lx_exprs.specs.Defined.{definition_of};
ghost use Rattle.lx_exprs.specs.Seen.{definition_view, definitions_view, scope_view, seen_in};
ghost use Rattle.lx_exprs.specs.FitDefinitions.{AreFit, DefinitionsFit, IsFitDefinition, ScopeFits};

use crate::tags::SharedTags;
use indexmap::IndexMap;
use lx_base::{Memory, Pos};
use lx_regex::Expr;
use std::alloc::Global;

/// What is kept of a definition.
pub struct Kept {
    /// Where its name stands.
    pub at: Pos,
    /// Its size; 2^40 stands for itself and for more.
    pub size: u64,
    /// Its nesting; 2^40 stands for itself and for more.
    pub nesting: u64,
    /// Its tags, in order. They are shared with definitions that have these of it.
    pub tags: SharedTags,
    /// How many groups it has; 2^40 stands for itself and for more.
    pub groups: u64,
    /// Its expression, where that is within the limits of a scanner, and else its class, if it is one.
    pub expr: Option<Expr>,
}

impl Drop for Kept {
    fn drop(self) {
        let Self {
            at: _,
            size: _,
            nesting: _,
            tags: _,
            groups: _,
            expr: _,
        } = self;
    }
}

/// The definitions so far, by name, in the order of the source. Contracts see them as a list, by `definitions_view`.
pub struct Definitions {
    by_name: IndexMap<Vec<u8>, Kept>,
}

impl Drop for Definitions {
    fn drop(self) {
        let Self { by_name: _ } = self;
    }
}

impl Definitions {
    /// No definitions. It takes no memory.
    pub fn new(alloc: Global) -> Definitions
        ensures { result.by_name.entries ≡ [] }
    {
        Definitions {
            by_name: IndexMap::new(alloc),
        }
    }

    /// The definition of a name.
    pub fn get(&self, name: &[u8]) -> Option<&Kept>
        ensures found { option_map (λ kept. definition_view name.now kept.now) result ≡ definition_of (definitions_view self.now) name.now }
        ensures fit { DefinitionsFit self.now → IfSome result (λ kept. IsFitDefinition kept.now) }
    {
        self.by_name.get(name)
    }

    /// Appends the definition of a name that has none yet.
    pub fn add(&mut self, alloc: Global, name: &[u8], kept: Kept) -> Result<(), Memory>
        requires { definition_of (definitions_view self.old) name.now ≡ None }
        ensures added { OnOk result (definitions_view self.new ≡ definitions_view self.old ++ definition_view name.now kept ∷ []) }
        ensures fit { DefinitionsFit self.old → IsFitDefinition kept → OnOk result (DefinitionsFit self.new) }
    {
        let name = Vec::from_slice(alloc, name)?;
        self.by_name.insert(name, kept)?;
        Ok(())
    }
}

/// The definitions that a block sees: those of the rules block that it uses, which stand in place of others with their names,
/// those of the blocks before it, and its own. Contracts see them as one list, by `scope_view`.
#[derive(Clone, Copy)]
pub struct Scope<'d> {
    pub kept: Option<&'d Definitions>,
    pub outer: Option<&'d Definitions>,
    pub own: &'d Definitions,
}

/// The definition of a name among definitions, if there are any.
fn found_in<'d>(definitions: Option<&'d Definitions>, name: &[u8]) -> Option<&'d Kept>
    ensures found { option_map (λ kept. definition_view name.now kept.now) result ≡ definition_of (seen_in definitions.entry) name.now }
    ensures fit { AreFit definitions.entry → IfSome result (λ kept. IsFitDefinition kept.now) }
{
    match definitions {
        Some(definitions) => definitions.get(name),
        None => None,
    }
}

impl<'d> Scope<'d> {
    /// The definition of a name.
    pub fn get(&self, name: &[u8]) -> Option<&'d Kept>
        ensures found { option_map (λ kept. definition_view name.now kept.now) result ≡ definition_of (scope_view self.now) name.now }
        ensures fit { ScopeFits self.now → IfSome result (λ kept. IsFitDefinition kept.now) }
    {
        match found_in(self.kept, name) {
            Some(kept) => Some(kept),
            None => match found_in(self.outer, name) {
                Some(kept) => Some(kept),
                None => self.own.get(name),
            },
        }
    }
}
