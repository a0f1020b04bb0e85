//! What holds of the tokens of all bodies: each law is the contract of a function with an empty body.
ghost use Rattle.std.specs.Prelude.{◌≡◌, ℕ, List, Ok};
ghost use Rattle.lx_base.specs.declared.places.Pos.{Pos};
ghost use Rattle.lx_forms.specs.Lexemes.{StandInFile, lexemes_of};
ghost use Rattle.lx_token.specs.Tokens.{tokens_of};
ghost use Rattle.lx_token.specs.declared.list.Token.{Token};

/// The tokens of a body stand in the file in which the body begins.
pub fn tokens_stand_in_the_file_of_their_body()
    ensures { (body : List ℕ) (start : Pos) (tokens : List Token) →
        tokens_of body start ≡ Ok tokens → StandInFile start.file (lexemes_of body tokens) }
{}
