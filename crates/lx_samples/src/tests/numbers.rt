//! Numbers and bounds, of which no case shows those above the limits of a scanner.
use lx_token::{number_of, repeat_of};

/// Numbers, whether they are negative, and their magnitudes, which go up to 2 to the power of 40.
const NUMBERS: [(&[u8], bool, u64); 6] = [
    (b"0", false, 0),
    (b"-1", true, 1),
    (b"0042", false, 42),
    (b"1099511627775", false, 1_099_511_627_775),
    (b"1099511627777", false, 1_099_511_627_776),
    (
        b"-99999999999999999999999999999999",
        true,
        1_099_511_627_776,
    ),
];

/// Bounds, with the least and the greatest number.
const BOUNDS: [(&[u8], u64, Option<u64>); 5] = [
    (b"{2}", 2, Some(2)),
    (b"{2,}", 2, None),
    (b"{2,3}", 2, Some(3)),
    (b"{30,4}", 30, Some(4)),
    (b"{0,1099511627776999}", 0, Some(1_099_511_627_776)),
];

/// Whether a text is the number with this sign and this magnitude.
fn is_number(text: &[u8], is_negative: bool, magnitude: u64) -> bool {
    let number = number_of(text);
    number.is_negative == is_negative && number.magnitude == magnitude
}

/// Whether a text has these bounds.
fn are_bounds(text: &[u8], min: u64, max: Option<u64>) -> bool {
    let repeat = repeat_of(text);
    repeat.min == min && repeat.max == max
}

#[test]
fn numbers_have_values(rt: HostRuntime) {
    for (text, is_negative, magnitude) in NUMBERS {
        assert!(rt; is_number(text, is_negative, magnitude));
    }
}

#[test]
fn bounds_have_values(rt: HostRuntime) {
    for (text, min, max) in BOUNDS {
        assert!(rt; are_bounds(text, min, max));
    }
}
