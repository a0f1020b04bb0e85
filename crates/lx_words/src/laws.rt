//! What holds of all command lines: each law is the contract of a function with an empty body.
ghost use Rattle.std.specs.Prelude.{◌≡◌, ℕ, List, None};
ghost use Rattle.lx_words.specs.Line.{line_of};
ghost use Rattle.lx_words.specs.Options.{options_of, words_fault};
ghost use Rattle.lx_words.specs.PrintedNames.{HavePlainNames};

/// Words without a fault name no file and no folder in whose name a block opens, where the name is told in an output.
pub fn printed_names_open_no_block()
    ensures { (words : List (List ℕ)) → words_fault words ≡ None → HavePlainNames (options_of (line_of words)) }
{}
