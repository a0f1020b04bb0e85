//! What holds of pieces of scanners. Each law is the contract of a function that does nothing.
ghost use Rattle.std.specs.Prelude.{◌≡◌, ◌≤◌, List, IfSome, length};
ghost use Rattle.lx_base.specs.declared.limits.TheConstants.{STATEMENT_LIMIT};
ghost use Rattle.lx_ccode.specs.Counts.{table_size};
ghost use Rattle.lx_ccode.specs.States.{states_from};
ghost use Rattle.lx_ccode.specs.Statements.{statement_count};
ghost use Rattle.lx_ccode.specs.Validity.{IsShort, labels};
ghost use Rattle.lx_ccode.specs.declared.piece.Piece.{Piece};
ghost use Rattle.lx_dispatch.specs.Dispatch.{IsTable};
ghost use Rattle.lx_layout.specs.Forgetting.{JumpsForget};
ghost use Rattle.lx_layout.specs.Parts.{Part, parts_blocks};
ghost use Rattle.lx_layout.specs.Pieces.{AreFit, ArePartsOf, Form, HasFields, IsPieceOf, Source, sources_in};
ghost use Rattle.lx_layout.specs.Switches.{cond_cases};

/// A piece whose blocks are those of scanners one behind another is a piece of these scanners: it is valid, and each scanner stands in it. What a
/// match kept is to be forgotten before a jump, if a statement tests it.
pub fn parts_are_pieces()
    ensures { (form : Form) (scanners : List Source) (parts : List Part) (piece : Piece) → AreFit form scanners
        → ArePartsOf form piece.table (sources_in piece.blocks scanners) parts → IsTable piece.table → length piece.table ≡ table_size piece.blocks
        → IsShort form.number
        → piece.blocks ≡ parts_blocks 0 form.first_state parts → statement_count piece.blocks ≤ STATEMENT_LIMIT
        → HasFields form (labels piece.blocks) piece → IfSome piece.states (λ cases. cases ≡ states_from 0 piece.blocks)
        → piece.conds ≡ cond_cases 0 piece.blocks → JumpsForget piece.blocks → IsPieceOf form scanners piece }
{}
