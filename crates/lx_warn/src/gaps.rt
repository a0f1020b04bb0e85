//! The least unit on which a state has no edge.
ghost use Rattle.std.specs.Prelude.{◌≡◌, ℕ, ◌<◌, ◌≤◌, IsSome, MatchOption, Some, None};
ghost use Rattle.lx_auto.specs.Automaton.{AreApart, edge_on};
ghost use Rattle.lx_base.specs.Spelling.{greatest_unit as unit_limit};

use lx_auto::Edge;
use lx_base::Enc;

/// The greatest code unit of an encoding.
fn greatest_unit(enc: Enc) -> u64
    ensures { result ≡ unit_limit enc }
{
    match enc {
        Enc::Byte | Enc::Utf8 => 0xFF,
        Enc::Ucs2 | Enc::Utf16 => 0xFFFF,
        Enc::Utf32 => 0xFFFF_FFFF,
    }
}

/// The least number that is on none of the edges.
fn least_free(edges: &[Edge]) -> u64
    requires { AreApart edges.now }
    ensures free { edge_on edges.now result ≡ None }
    ensures least { (unit : ℕ) → unit < result → IsSome (edge_on edges.now unit) }
{
    let mut least = 0;
    for edge in edges {
        if least < u64::from(edge.lo) {
            return least;
        }
        least = u64::from(edge.hi) + 1;
    }
    least
}

/// The least unit of an encoding that is on none of the edges, if there is one.
pub(crate) fn least_gap(edges: &[Edge], enc: Enc) -> Option<u32>
    requires { AreApart edges.now }
    ensures free { MatchOption result ((unit : ℕ) → unit ≤ unit_limit enc → IsSome (edge_on edges.now unit))
        (λ unit. (unit ≤ unit_limit enc) × (edge_on edges.now unit ≡ None)
        × ((other : ℕ) → other < unit → IsSome (edge_on edges.now other))) }
{
    let unit = least_free(edges);
    if unit <= greatest_unit(enc) {
        Some(unit as u32)
    } else {
        None
    }
}
