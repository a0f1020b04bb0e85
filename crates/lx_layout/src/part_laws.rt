//! What holds of pieces in which scanners stand one behind another. Each law is the contract of a function that does nothing.
ghost use Rattle.std.specs.Prelude.{◌≡◌, ℕ, ◌+◌, ◌*◌, ◌^◌, ◌<◌, ◌≤◌, Bool, IfSome, List, length, map, false, true};
ghost use Rattle.std.specs.List.{AllByRecursion, list_any, range_with_len};
ghost use Rattle.lx_base.specs.Names.{AreAllowed, AreDistinct, DoNotClash, Spellings, name_primitives, name_table};
ghost use Rattle.lx_base.specs.Spelling.{greatest_unit};
ghost use Rattle.lx_base.specs.declared.limits.TheConstants.{STATEMENT_LIMIT};
ghost use Rattle.lx_base.specs.declared.settings.Enc.{Enc};
ghost use Rattle.lx_base.specs.declared.settings.Format.{Format};
ghost use Rattle.lx_ccode.specs.Heads.{is_format_three};
ghost use Rattle.lx_ccode.specs.Labels.{is_like_block};
ghost use Rattle.lx_ccode.specs.States.{states_from};
ghost use Rattle.lx_ccode.specs.Statements.{all_statements, code_of, has_register_one, is_need, is_reading, is_state, is_try, names_table, statement_count};
ghost use Rattle.lx_ccode.specs.Validity.{AreOnce, EachBlockHasSpelling, HasFewGroups, IsLine, IsLong, IsShort, IsStateSwitch, IsValid, JumpsBelow, NamesOneOf, ends_once, label_of, labels, last_statements, refills_after_states, states_before_refills, tries_after_state};
ghost use Rattle.lx_ccode.specs.declared.piece.CodeBlock.{CodeBlock};
ghost use Rattle.lx_ccode.specs.declared.piece.Mode.{Mode};
ghost use Rattle.lx_ccode.specs.declared.piece.Piece.{Piece};
ghost use Rattle.lx_layout.specs.Carries.{NamesItsOwn};
ghost use Rattle.lx_layout.specs.FormedParts.{AllStore, AreFormed, all_asked, conds_of};
ghost use Rattle.lx_layout.specs.Layout.{StandsFrom};
ghost use Rattle.lx_layout.specs.PartModes.{Counts, CountsNothing, Tries, TriesNothing};
ghost use Rattle.lx_layout.specs.PartPieces.{IsPieceOf, Suits};
ghost use Rattle.lx_layout.specs.Parts.{EachPart, Part, part_codes, parts_blocks};
ghost use Rattle.lx_layout.specs.Writable.{PartsCanBeWritten};

/// In blocks of scanners one behind another each scanner stands behind those before it, has a block at least, and has its condition at its
/// first one. The conditions of the blocks are those of the scanners, in order.
pub fn parts_stand_in_their_order()
    ensures codes { (first : ℕ) (parts : List Part) (blocks : List CodeBlock) → blocks ≡ parts_blocks 0 first parts
        → EachPart (λ part begin from. StandsFrom (code_of blocks) begin (part_codes part begin from)) 0 first parts }
    ensures filled { (greatest first : ℕ) (parts : List Part) → AreFormed greatest parts
        → EachPart (λ part begin from. 0 < length (part_codes part begin from)) 0 first parts }
    ensures labels { (greatest first : ℕ) (parts : List Part) (blocks : List CodeBlock) → AreFormed greatest parts → blocks ≡ parts_blocks 0 first parts
        → labels blocks ≡ conds_of parts }
    ensures begins { (greatest first : ℕ) (parts : List Part) (blocks : List CodeBlock) → AreFormed greatest parts → blocks ≡ parts_blocks 0 first parts
        → EachPart (λ part begin from. label_of blocks begin ≡ part.given.cond) 0 first parts }
{}

/// Each statement of a scanner names registers of its automaton, or the one spare of each sort.
pub fn parts_name_their_registers()
    ensures { (greatest first : ℕ) (parts : List Part) → AreFormed greatest parts
        → EachPart (λ part begin from. AllByRecursion (λ code. AllByRecursion (NamesItsOwn part.given.auto) code) (part_codes part begin from)) 0 first parts }
{}

/// All blocks can be written where the ends of rules can be, and numbers of blocks and of what is stored are within their bounds.
pub fn parts_can_be_written()
    ensures { (greatest first : ℕ) (names : Spellings) (conds : List (List ℕ)) (parts : List Part) (blocks : List CodeBlock) → AreFormed greatest parts
        → IsShort greatest → PartsCanBeWritten names conds parts → blocks ≡ parts_blocks 0 first parts → length blocks ≤ STATEMENT_LIMIT
        → IsLong (first + all_asked parts)
        → EachBlockHasSpelling names blocks × AllByRecursion HasFewGroups (all_statements blocks) × AllByRecursion (NamesOneOf conds) (all_statements blocks) }
{}

/// Each block has one ending statement, which is its last, and each jump goes to a block that is there.
pub fn parts_are_closed()
    ensures jumps { (greatest first : ℕ) (parts : List Part) (blocks : List CodeBlock) → AreFormed greatest parts → blocks ≡ parts_blocks 0 first parts
        → AllByRecursion (JumpsBelow (length blocks)) (all_statements blocks) }
    ensures ends { (greatest first : ℕ) (parts : List Part) (blocks : List CodeBlock) → AreFormed greatest parts → blocks ≡ parts_blocks 0 first parts
        → AllByRecursion (λ (block : CodeBlock). ends_once block.stmts ≡ true) blocks }
{}

/// What reads is stored by numbers from the first one on in order, so the switch over these is one, where all scanners store; where none
/// does, nothing is stored.
pub fn parts_number_their_states()
    ensures numbers { (greatest first : ℕ) (parts : List Part) (blocks : List CodeBlock) → AreFormed greatest parts → AllStore true parts
        → blocks ≡ parts_blocks 0 first parts → map (λ case. case.state) (states_from 0 blocks) ≡ range_with_len first (all_asked parts) }
    ensures once { (greatest first : ℕ) (parts : List Part) (blocks : List CodeBlock) → AreFormed greatest parts → AllStore true parts
        → blocks ≡ parts_blocks 0 first parts → AreOnce (states_from 0 blocks) }
    ensures switch { (greatest first : ℕ) (parts : List Part) (blocks : List CodeBlock) → AreFormed greatest parts → AllStore true parts
        → blocks ≡ parts_blocks 0 first parts → IsStateSwitch blocks (states_from 0 blocks) }
    ensures none { (greatest first : ℕ) (parts : List Part) (blocks : List CodeBlock) → AreFormed greatest parts → AllStore false parts
        → blocks ≡ parts_blocks 0 first parts → list_any is_state (all_statements blocks) ≡ false }
{}

/// A refill is asked for behind what is stored, and what reads units asks for a refill in one way where all scanners do so. A block in
/// which a refill is tried behind what was stored is not the last.
pub fn parts_ask_before_they_read()
    ensures after { (first : ℕ) (parts : List Part) (blocks : List CodeBlock) → blocks ≡ parts_blocks 0 first parts
        → AllByRecursion (λ (block : CodeBlock). refills_after_states block.stmts ≡ true) blocks }
    ensures before { (first : ℕ) (parts : List Part) (blocks : List CodeBlock) → AllStore true parts → blocks ≡ parts_blocks 0 first parts
        → AllByRecursion (λ (block : CodeBlock). states_before_refills false block.stmts ≡ true) blocks }
    ensures no_needs { (first : ℕ) (parts : List Part) (blocks : List CodeBlock) → AllByRecursion CountsNothing parts
        → blocks ≡ parts_blocks 0 first parts → list_any is_need (all_statements blocks) ≡ false }
    ensures no_tries { (first : ℕ) (parts : List Part) (blocks : List CodeBlock) → AllByRecursion TriesNothing parts
        → blocks ≡ parts_blocks 0 first parts → list_any is_try (all_statements blocks) ≡ false }
    ensures needs { (greatest first : ℕ) (parts : List Part) (blocks : List CodeBlock) → AreFormed greatest parts → AllByRecursion Counts parts
        → blocks ≡ parts_blocks 0 first parts → list_any is_reading (all_statements blocks) ≡ true → list_any is_need (all_statements blocks) ≡ true }
    ensures tries { (first : ℕ) (parts : List Part) (blocks : List CodeBlock) → AllByRecursion Tries parts
        → blocks ≡ parts_blocks 0 first parts → list_any is_reading (all_statements blocks) ≡ true → list_any is_try (all_statements blocks) ≡ true }
    ensures last { (first : ℕ) (parts : List Part) (blocks : List CodeBlock) → blocks ≡ parts_blocks 0 first parts
        → tries_after_state false (last_statements blocks) ≡ false }
{}

/// A piece in which scanners stand one behind another is valid, if they can be written, ask for refills as pieces of its mode do, and all
/// store what reads or none does.
pub fn parts_are_valid()
    ensures { (format : Format) (custom : Bool) (enc : Enc) (mode : Mode) (stores : Bool) (first : ℕ) (parts : List Part) (piece : Piece) → 0 < length parts
        → AreFormed (greatest_unit enc) parts → AllByRecursion (Suits mode) parts → AllStore stores parts
        → PartsCanBeWritten piece.names (conds_of parts) parts → AreDistinct (conds_of parts) → IsPieceOf format custom enc mode first parts piece
        → IsShort piece.number → IfSome piece.eof (λ eof. eof < 2 ^ (8 * piece.unit)) → IsLine piece.line → AreAllowed piece.names → DoNotClash piece.names
        → (custom ≡ true → name_primitives piece.names ≡ false) → (is_format_three format ≡ true → name_table piece.names ≡ false)
        → (is_format_three format ≡ true → list_any names_table (all_statements piece.blocks) ≡ false)
        → (is_format_three format ≡ true → list_any (is_like_block piece.number piece.names) (conds_of parts) ≡ false)
        → (piece.ctx ≡ true → list_any has_register_one (all_statements piece.blocks) ≡ true)
        → statement_count piece.blocks ≤ STATEMENT_LIMIT → IsLong (first + all_asked parts) → IsValid piece }
{}
