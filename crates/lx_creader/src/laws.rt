//! What holds of all outputs: each law is the contract of a function with an empty body.
ghost use Rattle.std.specs.Prelude.{◌≡◌, ℕ, List, ◌∷◌, ◌++◌, length, Option, IfSome};
ghost use Rattle.std.specs.List.{AllByRecursion};
ghost use Rattle.lx_ccode.specs.Validity.{IsShort};
ghost use Rattle.lx_creader.specs.Cut.{Answers, AreCut, OutputPart, parts_text};
ghost use Rattle.lx_creader.specs.Marks.{IsFirstBegin};

/// Bytes are cut at their marks in one way.
pub fn outputs_are_cut_in_one_way()
    ensures { (parts other : List OutputPart) → AreCut parts → AreCut other → parts_text parts ≡ parts_text other → parts ≡ other }
{}

/// The first begin mark of a number, or of a scanner, stands where the first piece with this number, or that of the first
/// scanner, does.
pub fn first_begin_marks_stand_at_pieces()
    ensures { (block : Option ℕ) (parts : List OutputPart) (part : OutputPart) (more : List OutputPart) → IfSome block IsShort
        → AreCut (parts ++ part ∷ more) → AllByRecursion (λ (earlier : OutputPart). Answers block earlier → ⊥) parts → Answers block part
        → IsFirstBegin block (parts_text (parts ++ part ∷ more)) (length (parts_text parts)) }
{}
