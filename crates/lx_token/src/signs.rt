//! Signs.
ghost use Rattle.std.specs.Prelude.{◌≡◌, ◌<◌, length, IfSome};
ghost use Rattle.std.specs.Option.{option_copied};
ghost use Rattle.lx_token.specs.Signs.{after_sign, is_sign};

fn is_sign(letter: u8) -> bool
    ensures { result ≡ is_sign letter }
{
    match letter {
        b'='
        | b';'
        | b'|'
        | b'\\'
        | b'/'
        | b'('
        | b')'
        | b'*'
        | b'+'
        | b'?'
        | b'.'
        | b'$'
        | b'<'
        | b'>'
        | b',' => true,
        _ => false,
    }
}

/// What follows the longest sign that begins here.
pub(crate) fn after_sign(text: &[u8]) -> Option<&[u8]>
    ensures rest { option_copied result ≡ after_sign text.now }
    ensures shorter { IfSome result (λ rest. length rest.now < length text.now) }
{
    let (letter, tail) = text.split_first()?;
    if text.starts_with(b":=>") {
        Some(&text[3..])
    } else if text.starts_with(b"=>") {
        Some(&text[2..])
    } else if text.starts_with(b"/*") || !is_sign(*letter) {
        None
    } else {
        Some(tail)
    }
}
