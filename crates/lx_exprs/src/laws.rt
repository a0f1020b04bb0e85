//! What holds of the checks of all expressions: each law is the contract of a function with an empty body.
ghost use Rattle.std.specs.Prelude.{ℕ, List, Some};
ghost use Rattle.lx_base.specs.declared.faults.Fault.{Fault};
ghost use Rattle.lx_base.specs.declared.settings.Options.{Options};
ghost use Rattle.lx_exprs.specs.Defined.{Definition};
ghost use Rattle.lx_exprs.specs.Expressions.{ContextChecks, ExpressionChecks};
ghost use Rattle.lx_exprs.specs.FaultPlaces.{StandsIn};
ghost use Rattle.lx_forms.specs.Lexemes.{Lexeme, StandInFile};

/// The faults that the checks of an expression find, with a trailing context or without one, stand in the file of the
/// block's tokens.
pub fn expression_faults_stand_in_the_file_of_the_tokens()
    ensures plain { (options : Options) (definitions : List Definition) (file : ℕ) (lexemes : List Lexeme) (from until : ℕ) (fault : Fault) →
        StandInFile file lexemes → ExpressionChecks options lexemes definitions from until (Some fault) → StandsIn file fault }
    ensures trailing { (options : Options) (definitions : List Definition) (file : ℕ) (lexemes : List Lexeme) (from slash until : ℕ) (fault : Fault) →
        StandInFile file lexemes → ContextChecks options lexemes definitions from slash until (Some fault) → StandsIn file fault }
{}
