//! Blanks and comments, which stand between tokens and inside actions.
ghost use Rattle.std.specs.Prelude.{◌≡◌, ◌<◌, ◌≤◌, length, IfSome};
ghost use Rattle.std.specs.Option.{option_copied};
ghost use Rattle.lx_token.specs.Blanks.{after_blank, after_closing, after_comment, after_line, is_blank};

fn is_blank(letter: u8) -> bool
    ensures { result ≡ is_blank letter }
{
    letter == b' ' || letter == b'\t' || letter == b'\r' || letter == b'\n'
}

/// What is left of the text behind its first line.
pub fn after_line(text: &[u8]) -> &[u8]
    ensures rest { result.now ≡ after_line text.now }
    ensures shorter { length result.now ≤ length text.now }
{
    let mut rest = text;
    while let Some((letter, tail)) = rest.split_first() {
        if *letter == b'\n' {
            break;
        }
        rest = tail;
    }
    rest
}

/// What follows the first `*/`.
pub fn after_closing(text: &[u8]) -> Option<&[u8]>
    ensures rest { option_copied result ≡ after_closing text.now }
    ensures shorter { IfSome result (λ rest. length rest.now < length text.now) }
{
    let mut rest = text;
    while let Some((_, tail)) = rest.split_first() {
        if rest.starts_with(b"*/") {
            return Some(&rest[2..]);
        }
        rest = tail;
    }
    None
}

/// What follows the comment that begins here.
pub(crate) fn after_comment(text: &[u8]) -> Option<&[u8]>
    ensures rest { option_copied result ≡ after_comment text.now }
    ensures shorter { IfSome result (λ rest. length rest.now < length text.now) }
{
    if text.starts_with(b"//") {
        Some(after_line(&text[2..]))
    } else if text.starts_with(b"/*") {
        after_closing(&text[2..])
    } else {
        None
    }
}

/// What follows the blank or the comment that begins here.
pub fn after_blank(text: &[u8]) -> Option<&[u8]>
    ensures rest { option_copied result ≡ after_blank text.now }
    ensures shorter { IfSome result (λ rest. length rest.now < length text.now) }
{
    match text.split_first() {
        Some((letter, tail)) if is_blank(*letter) => Some(tail),
        _ => after_comment(text),
    }
}
