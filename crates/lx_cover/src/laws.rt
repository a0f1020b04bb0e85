//! What holds of covers. Each law is the contract of a function that does nothing.
ghost use Rattle.std.specs.Prelude.{◌≡◌, ◌≤◌, ℕ, List, length, sum_by};
ghost use Rattle.lx_base.specs.declared.settings.Enc.{Enc};
ghost use Rattle.lx_cover.specs.Cover.{IsCover, IsFirstSumOver};
ghost use Rattle.lx_cover.specs.declared.covering.TheConstants.{COVER_LIMIT};
ghost use Rattle.lx_regex.specs.Term.{Term};

/// The covering words of rules have one first sum that is over a limit, or none: there is none where the words of a cover have no more units
/// together than the limit.
pub fn covers_have_one_sum_over_a_limit()
    ensures one { (enc : Enc) (rules : List Term) (limit sum other : ℕ) → IsFirstSumOver enc rules limit sum → IsFirstSumOver enc rules limit other
        → sum ≡ other }
    ensures none { (enc : Enc) (rules : List Term) (words : List (List ℕ)) (limit sum : ℕ) → IsCover enc rules words → sum_by length words ≤ limit
        → IsFirstSumOver enc rules limit sum → ⊥ }
{}

/// The limit that contracts cite by name is this number of units.
pub fn limits_are_numbers()
    ensures { COVER_LIMIT ≡ 1048576 }
{}
