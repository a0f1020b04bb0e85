//! A window against a plain list, with all calls in a fixed order that looks random.
ghost use Rattle.std.specs.Prelude.{◌≡◌};

use lx_window::{Fill, MemRefill, Window};

/// The bytes of the stream: 48, so that they are whole units of each width.
const BYTES: &[u8] = b"The quick brown fox jumps over the lazy dog 0123";

/// The bytes of a unit, how many units a window has, how many a part, and whether the source leaves the scanner.
const WINDOWS: [(u32, usize, u32, bool); 12] = [
    (1, 1, 1, false),
    (1, 2, 3, true),
    (1, 5, 2, false),
    (1, 8, 3, true),
    (2, 1, 1, true),
    (2, 3, 2, false),
    (2, 4, 3, true),
    (2, 8, 3, false),
    (4, 1, 3, true),
    (4, 2, 1, false),
    (4, 6, 2, true),
    (4, 7, 3, false),
];

/// How many calls are made of each window.
const CALLS: u32 = 120;

/// A byte of the stream, or 0 where the unit has none there.
fn byte_at(unit: usize, at: usize, place: usize) -> u8 {
    if place >= unit || at > 48 || unit > 4 {
        return 0;
    }
    BYTES.get(unit * at + place).copied().unwrap_or(0)
}

/// The unit of the stream at an offset.
fn listed(unit: u32, at: u64) -> u32 {
    let (unit, at) = (unit as usize, at as usize);
    u32::from_le_bytes([
        byte_at(unit, at, 0),
        byte_at(unit, at, 1),
        byte_at(unit, at, 2),
        byte_at(unit, at, 3),
    ])
}

/// Whether a window has exactly the units of the stream from its start to its limit.
fn has_units(window: &Window<'_>, unit: u32) -> bool {
    let (start, limit) = (window.start(), window.limit());
    for at in 0..50_u64 {
        let want = if start <= at && at < limit {
            Some(listed(unit, at))
        } else {
            None
        };
        if window.unit_at(at) != want {
            return false;
        }
    }
    true
}

/// Whether the token up to the limit is that of the stream.
fn has_token(window: &Window<'_>, unit: u32) -> bool {
    let (start, limit) = (window.start(), window.limit());
    if unit > 4 || limit > 48 {
        return false;
    }
    let (from, end) = (
        unit as usize * start as usize,
        unit as usize * limit as usize,
    );
    BYTES.get(from..end) == Some(window.token(limit))
}

/// The answer that is wanted of a source whose parts have so many units.
fn wanted(window: &Window<'_>, unit: u32, step: u32, leaves_next: bool) -> Fill {
    let unit = u64::from(unit);
    let held = window.limit() - window.start();
    let free = window.size().saturating_sub(held).saturating_mul(unit);
    let left = 48_u64.saturating_sub(window.limit().saturating_mul(unit));
    if leaves_next {
        Fill::Leave
    } else if left == 0 {
        Fill::NoMore
    } else {
        Fill::More(u64::from(step).saturating_mul(unit).min(free).min(left) as usize)
    }
}

/// Moves the token's start by some units.
fn begin(window: &mut Window<'_>, some: u64)
    ensures { window.new.unit ≡ window.old.unit }
{
    let (start, limit) = (window.start(), window.limit());
    if start <= 48 && some <= 48 {
        window.begin(limit.min(start + some));
    }
}

/// The answer to a refill, where there is room for one.
fn answer(window: &mut Window<'_>, source: &mut MemRefill<'_>) -> Option<Fill>
    requires { source.old.unit ≡ window.old.unit }
    ensures { source.new.unit ≡ window.new.unit }
{
    if window.limit() - window.start() >= window.size() {
        return None;
    }
    window.refill(source).ok()
}

/// Makes the call that is drawn, and gives the answer where it was a refill.
fn call(window: &mut Window<'_>, source: &mut MemRefill<'_>, draw: u32) -> Option<Fill>
    requires { source.old.unit ≡ window.old.unit }
    ensures { source.new.unit ≡ window.new.unit }
{
    match draw % 4 {
        0 => {
            window.slide();
            None
        }
        1 => {
            begin(window, u64::from(draw / 4 % 8));
            None
        }
        _ => answer(window, source),
    }
}

/// Whether all calls of a window answer as the list does.
fn is_as_listed(
    window: &mut Window<'_>,
    source: &mut MemRefill<'_>,
    unit: u32,
    step: u32,
    leaves: bool,
) -> bool
    requires { source.old.unit ≡ window.old.unit }
{
    let mut leaves_next = leaves;
    let mut seed = 1_u32;
    for _ in 0..CALLS {
        seed = seed.wrapping_mul(1_103_515_245).wrapping_add(12_345);
        let want = wanted(window, unit, step, leaves_next);
        if let Some(fill) = call(window, source, seed / 65_536) {
            if fill != want {
                return false;
            }
            leaves_next = leaves && fill != Fill::NoMore && fill != Fill::Leave;
        }
        if !has_units(window, unit) || !has_token(window, unit) {
            return false;
        }
    }
    true
}

/// Whether a window of so many units is as listed.
fn is_good(unit: u32, size: usize, step: u32, leaves: bool) -> bool {
    let mut buffer = [0; 32];
    if (unit != 1 && unit != 2 && unit != 4) || step == 0 || size > 8 {
        return false;
    }
    let buffer = &mut buffer[..size * unit as usize];
    if buffer.len() % unit as usize != 0 || BYTES.len() % unit as usize != 0 {
        return false;
    }
    let mut window = Window::over(buffer, unit, 0);
    let mut source = MemRefill::over(BYTES, unit, step, leaves);
    is_as_listed(&mut window, &mut source, unit, step, leaves)
}

#[test]
fn windows_are_as_listed(rt: HostRuntime) {
    for (unit, size, step, leaves) in WINDOWS {
        assert!(rt;
            is_good(unit, size, step, leaves),
            "{size} units of {unit} bytes, {step} at a time"
        );
    }
}
