//! What holds of all blocks: each law is the contract of a function with an empty body.
ghost use Rattle.std.specs.Prelude.{◌≡◌, ◌≢◌, ◌≤◌, ◌⊎◌, ℕ, List, Ok, length};
ghost use Rattle.lx_base.specs.declared.limits.TheConstants.{SOURCE_LIMIT};
ghost use Rattle.lx_base.specs.declared.blocks.BlockKind.{BlockKind};
ghost use Rattle.lx_base.specs.declared.blocks.BlockKind.TheVariants.{Rules};
ghost use Rattle.lx_base.specs.declared.faults.Fault.{Fault};
ghost use Rattle.lx_base.specs.declared.places.Pos.{Pos};
ghost use Rattle.lx_base.specs.declared.settings.Options.{Options};
ghost use Rattle.lx_parse.specs.Blocks.{IsBody, form_of};
ghost use Rattle.lx_parse.specs.Sorts.{sorts_of};
ghost use Rattle.lx_parse.specs.declared.items.Item.{Item};
ghost use Rattle.lx_token.specs.Tokens.{tokens_of};
ghost use Rattle.lx_token.specs.declared.list.Token.{Token};
ghost use Rattle.lx_exprs.specs.FaultPlaces.{StandsIn};
ghost use Rattle.lx_rules.specs.declared.resolved.Resolved.{Resolved};
ghost use Rattle.lx_rules.specs.Blocks.{HasRules, IsBlockFault, IsTargetFault, Resolves, StandsUnder};
ghost use Rattle.lx_rules.specs.Environments.{Environment};
ghost use Rattle.lx_rules.specs.FitScanners.{FitsLimits};
ghost use Rattle.lx_rules.specs.Items.{first_state};
ghost use Rattle.lx_rules.specs.Likeness.{AreAlike};
ghost use Rattle.lx_rules.specs.WellFormed.{IsWellFormed};
ghost use Rattle.lx_forms.specs.Lexemes.{Lexeme, lexemes_of};

/// A block resolves or has a fault: that neither holds cannot be, where all blocks before were resolved under the same options.
pub fn blocks_resolve_or_have_a_fault()
    ensures { (options : Options) (kind : BlockKind) (at : Pos) (environment : Environment) (body : List ℕ) (tokens : List Token) (items : List Item) →
        HasRules kind → StandsUnder options environment → IsBody (form_of kind) (sorts_of kind body tokens) items →
        ((after : Environment) (resolved : Resolved) → Resolves options kind at environment (lexemes_of body tokens) items after resolved → ⊥) →
        ((fault : Fault) → IsBlockFault options kind at environment (lexemes_of body tokens) items fault → ⊥) → ⊥ }
{}

/// A block resolves in one way, or it has one fault, and not both: its actions, its configuration, the conditions of its scanners, and their
/// rules with the names of their tags are determined. Of expressions it is their terms that are.
pub fn blocks_resolve_in_one_way()
    ensures alike { (options : Options) (kind : BlockKind) (at : Pos) (environment after other : Environment) (lexemes : List Lexeme) (items : List Item) (resolved another : Resolved) →
        HasRules kind → Resolves options kind at environment lexemes items after resolved → Resolves options kind at environment lexemes items other another →
        (after ≡ other) × AreAlike resolved another }
    ensures fault { (options : Options) (kind : BlockKind) (at : Pos) (environment : Environment) (lexemes : List Lexeme) (items : List Item) (fault other : Fault) →
        HasRules kind → IsBlockFault options kind at environment lexemes items fault → IsBlockFault options kind at environment lexemes items other → fault ≡ other }
    ensures apart { (options : Options) (kind : BlockKind) (at : Pos) (environment after : Environment) (lexemes : List Lexeme) (items : List Item) (resolved : Resolved) (fault : Fault) →
        HasRules kind → Resolves options kind at environment lexemes items after resolved → IsBlockFault options kind at environment lexemes items fault → ⊥ }
{}

/// The fault of a block stands in the file of its opener, whichever file that is, if its body begins in this file; or it is that of
/// a target in the rules block that is used.
pub fn block_faults_stand_in_the_file_of_the_opener()
    ensures { (options : Options) (at start : Pos) (environment : Environment) (kind : BlockKind) (body : List ℕ) (tokens : List Token) (items : List Item) (fault : Fault) →
        HasRules kind → start.file ≡ at.file → tokens_of body start ≡ Ok tokens → IsBody (form_of kind) (sorts_of kind body tokens) items →
        IsBlockFault options kind at environment (lexemes_of body tokens) items fault →
        StandsIn at.file fault ⊎ IsTargetFault (first_state kind environment).rules fault }
{}

/// What a block of scanners resolves to is well formed, where all blocks before were resolved under the same options, and where the
/// expressions and the actions that stand for it are within the limits.
pub fn resolved_blocks_are_well_formed()
    ensures { (options : Options) (kind : BlockKind) (at start : Pos) (environment after : Environment) (body : List ℕ) (tokens : List Token) (items : List Item) (resolved : Resolved) →
        HasRules kind → kind ≢ Rules → StandsUnder options environment → length body ≤ SOURCE_LIMIT → tokens_of body start ≡ Ok tokens →
        IsBody (form_of kind) (sorts_of kind body tokens) items → Resolves options kind at environment (lexemes_of body tokens) items after resolved →
        FitsLimits resolved → IsWellFormed options resolved }
{}
