//! What holds of the definitions. Each law is the contract of a function that does nothing.
ghost use Rattle.std.specs.Prelude.{◌≡◌, ◌≢◌, ◌↔◌, ◌++◌, ◌<◌, ◌*◌, ℕ, List, [], length, Bool, Some, None, IsSome, slice_get};
ghost use Rattle.lx_base.specs.declared.settings.Enc.{Enc};
ghost use Rattle.lx_regex.specs.Automaton.{State, automaton};
ghost use Rattle.lx_regex.specs.Cut.{BeginsMatch, Cut, GoesOn, IsCut, Precedes, SamePlace, rule_part};
ghost use Rattle.lx_regex.specs.Dictionary.{IsBefore};
ghost use Rattle.lx_regex.specs.Kernel.{IsKernel};
ghost use Rattle.lx_regex.specs.Least.{HasTree, HasPlainTree, IsLeast};
ghost use Rattle.lx_regex.specs.Limits.{IsRegular};
ghost use Rattle.lx_regex.specs.Match.{IsMatch, Outcome, part_at};
ghost use Rattle.lx_regex.specs.Order.{Policy};
ghost use Rattle.lx_regex.specs.Parts.{IsBeginning, Part, parts_in, parts_of};
ghost use Rattle.lx_regex.specs.Pattern.{Pattern, terms_of, with_terms};
ghost use Rattle.lx_regex.specs.Posix.{HaveEqualLengths};
ghost use Rattle.lx_regex.specs.Script.{Symbol, choices, script, units};
ghost use Rattle.lx_regex.specs.Term.{Term, parts};
ghost use Rattle.lx_regex.specs.Tree.{Tree};
ghost use Rattle.lx_regex.specs.Values.{last_event, value_of};
ghost use Rattle.lx_regex.specs.Walk.{Walk, symbols};

/// A term has as many parts in preorder as are counted, a rule's own part stands at its number, and the automaton has the
/// beginning of part p as its state 2 p.
pub fn parts_are_numbered()
    ensures counted { (rule up child part : ℕ) (e : Term) → length (parts_in rule up child part e) ≡ parts e }
    ensures own { (patterns : List Pattern) (place : ℕ) (pattern : Pattern) → slice_get (with_terms patterns) place ≡ Some pattern
        → (part : Part) × (slice_get (parts_of patterns) (part_at patterns place) ≡ Some part)
        × (part.rule ≡ pattern.number) × (part.up ≡ 0) }
    ensures states { (patterns : List Pattern) (place : ℕ) (part : Part) (state : State) → slice_get (parts_of patterns) place ≡ Some part
        → slice_get (automaton (terms_of patterns)) (2 * place) ≡ Some state → IsBeginning part.sort state }
{}

/// A term that has a tree for a word has a plain one.
pub fn plain_tree_exists()
    ensures { (enc : Enc) (part : ℕ) (e : Term) (word : List ℕ) → 0 < part
        → HasTree enc part e word → HasPlainTree enc part e word }
{}

/// A term that has a tree for a word has a least one under either policy.
pub fn least_tree_exists()
    ensures { (policy : Policy) (enc : Enc) (part : ℕ) (e : Term) (word : List ℕ) → 0 < part
        → HasTree enc part e word → (tree : Tree e) × IsLeast policy enc part e word tree }
{}

/// All least trees of a word under one policy have one script, and so one value for each tag.
pub fn least_script_is_unique()
    ensures script { (policy : Policy) (enc : Enc) (part : ℕ) (e : Term) (word : List ℕ) (tree other : Tree e) → 0 < part
        → IsLeast policy enc part e word tree → IsLeast policy enc part e word other
        → script enc part tree ≡ script enc part other }
    ensures values { (policy : Policy) (enc : Enc) (part : ℕ) (e : Term) (word : List ℕ) (tree other : Tree e) (start number : ℕ) (many : Bool) → 0 < part
        → IsLeast policy enc part e word tree → IsLeast policy enc part e word other
        → value_of start (script enc part tree) number many ≡ value_of start (script enc part other) number many }
{}

/// Trees over the same units that have equal lengths at all positions have one script, and so one value for each tag: the POSIX order
/// tells apart what differs in what it does (Okui and Suzuki 2010).
pub fn equal_lengths_have_one_script()
    ensures script { (enc : Enc) (part : ℕ) (e : Term) (tree other : Tree e) → units (script enc part tree) ≡ units (script enc part other)
        → HaveEqualLengths enc tree other → script enc part tree ≡ script enc part other }
    ensures values { (enc : Enc) (part : ℕ) (e : Term) (tree other : Tree e) (start number : ℕ) (many : Bool)
        → units (script enc part tree) ≡ units (script enc part other) → HaveEqualLengths enc tree other
        → value_of start (script enc part tree) number many ≡ value_of start (script enc part other) number many }
{}

/// Each tree of a rule within the limits of a scanner gives the tag of the rule's trailing context an offset.
pub fn slashes_are_set()
    ensures { (enc : Enc) (pattern : Pattern) (slash start part : ℕ) (tree : Tree pattern.term) → IsRegular pattern → pattern.slash ≡ Some slash
        → IsSome (last_event slash start None (script enc part tree)) }
{}

/// The walks of an automaton from the beginning of a rule to state 0 are the scripts of the rule's trees.
pub fn walks_are_scripts()
    ensures walk { (enc : Enc) (rules : List Term) (place : ℕ) (e : Term) (tree : Tree e) → slice_get rules place ≡ Some e
        → (walk : Walk (automaton rules) 0 (2 * rule_part rules place))
        × (symbols enc walk [] ≡ script enc (rule_part rules place) tree) }
    ensures tree { (enc : Enc) (rules : List Term) (place : ℕ) (e : Term) (walk : Walk (automaton rules) 0 (2 * rule_part rules place))
        → slice_get rules place ≡ Some e
        → (tree : Tree e) × (symbols enc walk [] ≡ script enc (rule_part rules place) tree) }
{}

/// A word for which a rule has a tree begins a match, and so does each front of a word that does.
pub fn fronts_begin_matches()
    ensures taken { (enc : Enc) (rules : List Term) (place : ℕ) (e : Term) (word : List ℕ) → slice_get rules place ≡ Some e
        → HasTree enc (rule_part rules place) e word → BeginsMatch enc rules word }
    ensures front { (enc : Enc) (rules : List Term) (word more : List ℕ)
        → BeginsMatch enc rules (word ++ more) → BeginsMatch enc rules word }
{}

/// What goes on from one cut at a word goes on from each at its place; and of two cuts of one rule the one with the lesser choices
/// keeps the lesser choices, whatever goes on from them.
pub fn lesser_choices_are_kept()
    ensures goes_on { (enc : Enc) (rules : List Term) (word : List ℕ) (cut other : Cut) (rest : List Symbol)
        → IsCut enc rules word cut → IsCut enc rules word other → SamePlace enc rules cut other
        → GoesOn enc rules cut rest → GoesOn enc rules other rest }
    ensures lesser { (enc : Enc) (rules : List Term) (word : List ℕ) (cut other : Cut) (rest more : List Symbol)
        → IsCut enc rules word cut → IsCut enc rules word other → cut.rule ≡ other.rule → IsBefore (choices cut.front) (choices other.front)
        → GoesOn enc rules cut rest → GoesOn enc rules other more
        → IsBefore (choices (cut.front ++ rest)) (choices (other.front ++ more)) }
{}

/// A word has at most one leftmost greedy kernel, and it is not empty exactly where the word begins a match.
pub fn kernel_is_unique()
    ensures unique { (enc : Enc) (rules : List Term) (word : List ℕ) (kernel other : List Cut)
        → IsKernel Precedes enc rules word kernel → IsKernel Precedes enc rules word other → kernel ≡ other }
    ensures begins { (enc : Enc) (rules : List Term) (word : List ℕ) (kernel : List Cut) → IsKernel Precedes enc rules word kernel
        → BeginsMatch enc rules word ↔ (kernel ≢ []) }
{}

/// A rule list has at most one match on a stream from a start, under either policy.
pub fn match_is_unique()
    ensures { (policy : Policy) (enc : Enc) (patterns : List Pattern) (stream : List ℕ) (start : ℕ) (outcome other : Outcome)
        → IsMatch policy enc patterns stream start outcome → IsMatch policy enc patterns stream start other → outcome ≡ other }
{}
