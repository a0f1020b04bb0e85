//! Letters, and the words that are made of them.
ghost use Rattle.std.specs.Prelude.{◌≡◌, ◌≤◌, ◌↔◌, ◌++◌, ℕ, List, IsTrue, true, length, drop, map};
ghost use Rattle.std.specs.Char.{digit_value};
ghost use Rattle.lx_base.specs.Letters.{EachLetter, IsIdentifier, IsSpelling, after_letters, begins_identifier, begins_with, each_letter, equal_words, front_letters, is_digit, is_hexadecimal, is_in_identifier, is_in_spelling, is_letter_of};
ghost use Rattle.lx_base.specs.Names.{AreDistinct, IsNoneOf, IsWords};

/// The letters of a kind of words.
#[derive(Clone, Copy, PartialEq, Eq)]
pub enum Letters {
    /// The digits of a number.
    Digits,
    /// The digits of a hexadecimal number.
    Hexadecimal,
    /// Letters, digits and `_`.
    Identifier,
    /// As in an identifier, or one of `. - > [ ] ( ) & *`.
    Spelling,
    /// As in an identifier, or the space between the words of a type.
    TypeName,
    /// As in an identifier, or the `:` in the word that opens a block.
    Opener,
}

impl Letters {
    /// Whether the letter is one of them.
    pub fn have(self, letter: u8) -> bool
        ensures { result ≡ is_letter_of self letter }
    {
        match self {
            Letters::Digits => is_digit(letter),
            Letters::Hexadecimal => is_hexadecimal(letter),
            Letters::Identifier => is_in_identifier(letter),
            Letters::Spelling => is_in_spelling(letter),
            Letters::TypeName => is_in_identifier(letter) || letter == b' ',
            Letters::Opener => is_in_identifier(letter) || letter == b':',
        }
    }
}

/// Whether the letter is a digit.
pub fn is_digit(letter: u8) -> bool
    ensures { result ≡ is_digit letter }
{
    letter.is_ascii_digit()
}

/// The value of a digit or a letter, as in numbers of base 36; 36 for any other byte.
pub fn digit_value(letter: u8) -> u8
    ensures value { result ≡ digit_value letter }
    ensures small { result ≤ 36 }
{
    match letter {
        b'0'..=b'9' => letter - b'0',
        b'A'..=b'Z' => letter - 55,
        b'a'..=b'z' => letter - 87,
        _ => 36,
    }
}

/// Whether the letter is a digit of a hexadecimal number.
pub fn is_hexadecimal(letter: u8) -> bool
    ensures { result ≡ is_hexadecimal letter }
{
    digit_value(letter) < 16
}

/// Whether an identifier may begin with the letter: a letter or `_`.
pub fn begins_identifier(letter: u8) -> bool
    ensures { result ≡ begins_identifier letter }
{
    letter.is_ascii_alphabetic() || letter == b'_'
}

/// Whether the letter may stand in an identifier: a letter, a digit or `_`.
pub fn is_in_identifier(letter: u8) -> bool
    ensures { result ≡ is_in_identifier letter }
{
    letter.is_ascii_alphanumeric() || letter == b'_'
}

/// Whether the letter may stand in a spelling: as in an identifier, or one of `. - > [ ] ( ) & *`.
pub fn is_in_spelling(letter: u8) -> bool
    ensures { result ≡ is_in_spelling letter }
{
    is_in_identifier(letter)
        || matches!(
            letter,
            b'.' | b'-' | b'>' | b'[' | b']' | b'(' | b')' | b'&' | b'*'
        )
}

/// What is left of the text behind the letters of a kind at its front.
pub fn after_letters(text: &[u8], letters: Letters) -> &[u8]
    ensures rest { result.now ≡ after_letters (is_letter_of letters) text.now }
    ensures shorter { length result.now ≤ length text.now }
{
    let mut rest = text;
    while let Some((letter, tail)) = rest.split_first() {
        if !letters.have(*letter) {
            break;
        }
        rest = tail;
    }
    rest
}

/// The letters of a kind at the front of the text.
pub fn front_letters(text: &[u8], letters: Letters) -> &[u8]
    ensures { result.now ≡ front_letters (is_letter_of letters) text.now }
{
    &text[..text.len() - after_letters(text, letters).len()]
}

/// Whether each letter of the word is of the kind.
pub fn are_letters(word: &[u8], letters: Letters) -> bool
    ensures { result ≡ each_letter (is_letter_of letters) word.now }
{
    let mut rest = word;
    while let Some((letter, tail)) = rest.split_first() {
        if !letters.have(*letter) {
            return false;
        }
        rest = tail;
    }
    true
}

/// Whether the word begins with the front.
pub fn begins_with(word: &[u8], front: &[u8]) -> bool
    ensures value { result ≡ begins_with front.now word.now }
    ensures stands { IsTrue result → word.now ≡ front.now ++ drop (length front.now) word.now }
    ensures differs { (rest : List ℕ) → word.now ≡ front.now ++ rest → IsTrue result }
{
    word.starts_with(front)
}

/// Whether the words are equal.
pub fn equal_words(word: &[u8], other: &[u8]) -> bool
    ensures value { result ≡ equal_words word.now other.now }
    ensures decides { IsTrue result ↔ (word.now ≡ other.now) }
{
    word == other
}

/// Whether the word is an identifier of C: a letter or `_`, then letters, digits and `_`.
pub fn is_identifier(word: &[u8]) -> bool
    ensures { IsTrue result ↔ IsIdentifier word.now }
{
    match word.split_first() {
        Some((letter, rest)) => begins_identifier(*letter)
            && are_letters(rest, Letters::Identifier),
        None => false,
    }
}

/// Whether the word may spell a variable or a call of a user's: letters, digits, `_` and
/// `. - > [ ] ( ) & *`, at least one of them.
pub fn is_spelling(word: &[u8]) -> bool
    ensures { IsTrue result ↔ IsSpelling word.now }
{
    let is_empty = word.is_empty();
    let spelled = are_letters(word, Letters::Spelling);
    !is_empty && spelled
}

/// Whether the word may spell a type: identifiers and numbers with single spaces between them.
pub fn is_words(word: &[u8]) -> bool
    ensures { IsTrue result ↔ IsWords true word.now }
{
    let mut rest = word;
    let mut after_space = true;
    while let Some((letter, tail)) = rest.split_first() {
        let is_space = *letter == b' ';
        if !is_in_identifier(*letter) && (after_space || !is_space) {
            return false;
        }
        after_space = is_space;
        rest = tail;
    }
    !after_space
}

/// Whether the word is none of the others.
pub fn is_none_of(word: &[u8], others: &[&[u8]]) -> bool
    ensures { IsTrue result ↔ IsNoneOf word.now (map (λ word. word.now) others.now) }
{
    for other in others {
        if equal_words(word, other) {
            return false;
        }
    }
    true
}

/// Whether no two of the words are equal.
pub fn are_distinct(words: &[&[u8]]) -> bool
    ensures { IsTrue result ↔ AreDistinct (map (λ word. word.now) words.now) }
{
    for (place, word) in words.iter().enumerate() {
        if !is_none_of(word, &words[place + 1..]) {
            return false;
        }
    }
    true
}
