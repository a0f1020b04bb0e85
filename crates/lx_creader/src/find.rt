//! Finds where a piece begins.
ghost use Rattle.std.specs.Prelude.{◌≡◌, ◌↔◌, ◌⊎◌, ℕ, Some, None, IsTrue, drop, MatchOption};
ghost use Rattle.lx_creader.specs.Marks.{BeginsBlock, HasNoNeedlessZero, IsFirstBegin};

use crate::words::{after_digits, front_digits, long_at, skip};
use lx_base::letters::begins_with;
use memchr::memmem;

/// Whether the digits are a number without needless zeros.
fn has_no_needless_zero(digits: &[u8]) -> bool
    ensures { IsTrue result ↔ HasNoNeedlessZero digits.now }
{
    match digits {
        [] => false,
        [first, ..] => *first != b'0' || digits.len() == 1,
    }
}

fn are_true(begins: bool, spelled: bool, fits: bool, closes: bool) -> bool
    ensures { IsTrue result ↔ (IsTrue begins × IsTrue spelled × IsTrue fits × IsTrue closes) }
{
    begins && spelled && fits && closes
}

fn is_either(names: bool, head: bool) -> bool
    ensures { IsTrue result ↔ (IsTrue names ⊎ IsTrue head) }
{
    names || head
}

/// Whether the begin mark of the piece with this number stands here.
fn begins_piece(bytes: &[u8], number: u32) -> bool
    ensures { IsTrue result ↔ BeginsBlock (Some number) bytes.now }
{
    let begins = begins_with(bytes, b"/*!begin:re2c ");
    let text = skip(bytes, 14);
    let spelled = has_no_needless_zero(front_digits(text));
    let same = long_at(text) == u64::from(number);
    let closes = begins_with(after_digits(text), b"*/");
    are_true(begins, spelled, same, closes)
}

/// Whether the begin mark of a scanner stands here.
fn begins_scanner(bytes: &[u8]) -> bool
    ensures { IsTrue result ↔ BeginsBlock None bytes.now }
{
    let begins = begins_with(bytes, b"/*!begin:re2c ");
    let text = skip(bytes, 14);
    let spelled = has_no_needless_zero(front_digits(text));
    let small = long_at(text) < 4_294_967_296;
    let names = begins_with(after_digits(text), b"*/\n/*!names:re2c ");
    let head = begins_with(after_digits(text), b"*/\n/*!head:re2c ");
    are_true(begins, spelled, small, is_either(names, head))
}

/// Whether the block begins here.
fn begins_block(bytes: &[u8], block: Option<u32>) -> bool
    ensures { IsTrue result ↔ BeginsBlock block bytes.now }
{
    match block {
        Some(number) => begins_piece(bytes, number),
        None => begins_scanner(bytes),
    }
}

/// The offset of the first begin mark `/*!begin:re2c N*/` with the number N, which has no needless zeros;
/// without a number, that of the first begin mark of a scanner, behind whose line feed `/*!names:re2c `
/// or `/*!head:re2c ` stands at once.
///
/// `None` comes exactly where there is none. It takes no memory.
pub fn find_block(bytes: &[u8], block: Option<u32>) -> Option<usize>
    ensures { MatchOption result ((place : ℕ) → BeginsBlock block (drop place bytes.now) → ⊥) (λ offset. IsFirstBegin block bytes.now offset) }
{
    let mut offset = 0;
    while let Some(found) = memmem::find(skip(bytes, offset), b"/*!begin:re2c ") {
        offset += found;
        if begins_block(skip(bytes, offset), block) {
            return Some(offset);
        }
        offset += 1;
    }
    None
}
