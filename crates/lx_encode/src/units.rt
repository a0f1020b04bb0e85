//! Code units, and the spelling of one code point.
ghost use Rattle.std.specs.Prelude.{◌≡◌, ℕ, ◌+◌, ◌<◌, ◌≤◌, ◌^◌, ◌↔◌, [], ◌∷◌, length, All, IsNone, IfSome};
ghost use Rattle.lx_base.specs.Spelling.{greatest_point, spell};
ghost use Rattle.lx_base.specs.Spelling as Spelling;
ghost use Rattle.lx_encode.specs.Units.{unit_list, unit_size, unused};

use lx_base::Enc;

/// The code units of one code point: the first `len` of `a`, `b`, `c` and `d`, and 0 in the others.
#[derive(Clone, Copy, PartialEq, Eq)]
pub struct Units {
    pub len: u8,
    pub a: u32,
    pub b: u32,
    pub c: u32,
    pub d: u32,
}

/// The greatest code unit of an encoding. It takes no memory.
pub fn greatest_unit(enc: Enc) -> u32
    ensures { result + 1 ≡ 256 ^ unit_size enc }
{
    match enc {
        Enc::Byte | Enc::Utf8 => 0xFF,
        Enc::Ucs2 | Enc::Utf16 => 0xFFFF,
        Enc::Utf32 => 0xFFFF_FFFF,
    }
}

/// How many bytes a code unit has. It takes no memory.
pub fn unit_bytes(enc: Enc) -> u32
    ensures { result ≡ unit_size enc }
{
    match enc {
        Enc::Byte | Enc::Utf8 => 1,
        Enc::Ucs2 | Enc::Utf16 => 2,
        Enc::Utf32 => 4,
    }
}

/// The greatest code point that an encoding spells. It takes no memory.
pub fn greatest_point(enc: Enc) -> u32
    ensures { result ≡ greatest_point enc }
{
    match enc {
        Enc::Byte => 0xFF,
        Enc::Ucs2 => 0xFFFF,
        Enc::Utf8 | Enc::Utf16 | Enc::Utf32 => 0x10_FFFF,
    }
}

/// A later byte of a UTF-8 spelling, with the last six bits of the number.
fn continuation(number: u32) -> u32
    ensures { result ≡ Spelling.continuation number }
{
    0x80 + number % 64
}

/// The spelling in UTF-8, by the general pattern, which serves surrogates too (Unicode 15, table 3-6).
fn utf8_units(point: u32) -> Units
    requires { point ≤ 0x10FFFF }
    ensures spelled { unit_list result ≡ Spelling.utf8 point }
    ensures count { result.len ≡ length (Spelling.utf8 point) }
    ensures unused { All (λ unit. unit ≡ 0) (unused result) }
{
    if point < 0x80 {
        Units {
            len: 1,
            a: point,
            b: 0,
            c: 0,
            d: 0,
        }
    } else if point < 0x800 {
        Units {
            len: 2,
            a: 0xC0 + point / 64,
            b: continuation(point),
            c: 0,
            d: 0,
        }
    } else if point < 0x1_0000 {
        Units {
            len: 3,
            a: 0xE0 + point / 4096,
            b: continuation(point / 64),
            c: continuation(point),
            d: 0,
        }
    } else {
        Units {
            len: 4,
            a: 0xF0 + point / 262_144,
            b: continuation(point / 4096),
            c: continuation(point / 64),
            d: continuation(point),
        }
    }
}

/// The spelling in UTF-16 (Unicode 15, table 3-5).
fn utf16_units(point: u32) -> Units
    ensures spelled { unit_list result ≡ Spelling.utf16 point }
    ensures count { result.len ≡ length (Spelling.utf16 point) }
    ensures unused { All (λ unit. unit ≡ 0) (unused result) }
{
    if point < 0x1_0000 {
        return one_unit(point);
    }
    let rest = point - 0x1_0000;
    Units {
        len: 2,
        a: 0xD800 + rest / 1024,
        b: 0xDC00 + rest % 1024,
        c: 0,
        d: 0,
    }
}

/// The spelling by one unit.
fn one_unit(point: u32) -> Units
    ensures spelled { unit_list result ≡ point ∷ [] }
    ensures count { result.len ≡ length (point ∷ []) }
    ensures unused { All (λ unit. unit ≡ 0) (unused result) }
{
    Units {
        len: 1,
        a: point,
        b: 0,
        c: 0,
        d: 0,
    }
}

/// The code units that spell a code point, or nothing where the encoding does not have it. It takes no
/// memory.
pub fn units_of(enc: Enc, point: u32) -> Option<Units>
    ensures none { IsNone result ↔ (greatest_point enc < point) }
    ensures spelled { IfSome result (λ units. unit_list units ≡ spell enc point) }
    ensures count { IfSome result (λ units. units.len ≡ length (spell enc point)) }
    ensures unused { IfSome result (λ units. All (λ unit. unit ≡ 0) (unused units)) }
{
    if point > greatest_point(enc) {
        return None;
    }
    let units = match enc {
        Enc::Byte | Enc::Ucs2 | Enc::Utf32 => one_unit(point),
        Enc::Utf8 => utf8_units(point),
        Enc::Utf16 => utf16_units(point),
    };
    Some(units)
}
