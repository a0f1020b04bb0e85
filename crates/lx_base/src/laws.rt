//! What holds of the limits and of the tests of words: a law is the contract of a function with an empty body.
ghost use Rattle.std.specs.Prelude.{◌≡◌, ◌↔◌, ℕ, Bool, List, true};
ghost use Rattle.lx_base.specs.Allowed.{is_identifier, is_spelling, is_words};
ghost use Rattle.lx_base.specs.Letters.{EachLetter, IsIdentifier, IsSpelling, each_letter};
ghost use Rattle.lx_base.specs.Names.{IsWords};
ghost use Rattle.lx_base.specs.declared.limits.TheConstants.{BOUND_LIMIT, KERNEL_LIMIT, NESTING_LIMIT, PLACE_LIMIT, REGISTER_LIMIT, SIZE_LIMIT, SOURCE_LIMIT, STATEMENT_LIMIT, TAG_LIMIT};

/// The limits that contracts cite by name are these numbers: bytes of a source; of a scanner the size of its rules, the greatest bound of a
/// repetition, nested expressions, tags, kernels, and places of its kernels together; the greatest number of a register; and the
/// statements of an emitted piece.
pub fn limits_are_numbers()
    ensures source { SOURCE_LIMIT ≡ 16777216 }
    ensures size { SIZE_LIMIT ≡ 4096 }
    ensures bound { BOUND_LIMIT ≡ 4096 }
    ensures nesting { NESTING_LIMIT ≡ 256 }
    ensures tags { TAG_LIMIT ≡ 128 }
    ensures kernels { KERNEL_LIMIT ≡ 4096 }
    ensures places { PLACE_LIMIT ≡ 1048576 }
    ensures registers { REGISTER_LIMIT ≡ 4294967295 }
    ensures statements { STATEMENT_LIMIT ≡ 4611686018427387904 }
{}

/// The tests of a word, with which definitions compute, hold of just the words of which the facts hold that contracts say.
pub fn tests_of_words_decide_facts()
    ensures letters { (test : ℕ → Bool) (word : List ℕ) → (each_letter test word ≡ true) ↔ EachLetter test word }
    ensures identifiers { (word : List ℕ) → (is_identifier word ≡ true) ↔ IsIdentifier word }
    ensures spellings { (word : List ℕ) → (is_spelling word ≡ true) ↔ IsSpelling word }
    ensures words { (after_space : Bool) (word : List ℕ) → (is_words after_space word ≡ true) ↔ IsWords after_space word }
{}
