//! What a case is.
use lx_base::{BlockKind, Pos};

/// A case: its name, the number of its line, the words of its options, and its blocks.
pub struct Case {
    pub name: String,
    pub line: usize,
    pub options: String,
    pub blocks: Vec<CaseBlock>,
}

impl Drop for Case {
    fn drop(self) {
        let Self {
            name: _,
            line: _,
            options: _,
            blocks: _,
        } = self;
    }
}

/// A block of a case.
pub struct CaseBlock {
    pub opener: Opener,
    /// Its number in the case, from 0, which is that of its file.
    pub file: u32,
    /// What stands behind the opener.
    pub body: String,
    /// What the block is to resolve to; none where the case does not say so yet.
    pub wanted: Option<Wanted>,
}

impl Drop for CaseBlock {
    fn drop(self) {
        let Self {
            opener: _,
            file: _,
            body: _,
            wanted: _,
        } = self;
    }
}

/// What a block is to resolve to, and the number of the line where this begins.
#[derive(Drop)]
pub struct Wanted {
    pub line: usize,
    pub text: String,
}

/// How a block begins.
#[derive(Clone, Copy)]
pub enum Opener {
    Code,
    Rules,
    Use,
}

impl Opener {
    ghost use Rattle.std.specs.Prelude.{◌≡◌, ◌≤◌, true};
    ghost use Rattle.lx_parse.specs.Blocks.{has_tokens};
    ghost use Rattle.lx_rules.specs.Blocks.{HasRules};

    /// The kind of the block.
    pub fn kind(self) -> BlockKind
        ensures tokens { has_tokens result ≡ true }
        ensures rules { HasRules result }
    {
        match self {
            Opener::Code => BlockKind::Code,
            Opener::Rules => BlockKind::Rules,
            Opener::Use => BlockKind::Use,
        }
    }

    /// The column behind `/*!re2c`, `/*!rules:re2c` or `/*!use:re2c`, where these stand at the beginning of a line.
    fn column_behind(self) -> u32
        ensures { result ≤ 14 }
    {
        match self {
            Opener::Code => 8,
            Opener::Rules => 14,
            Opener::Use => 12,
        }
    }

    /// The place behind the opener, which stands at the beginning of a file.
    pub fn place_behind(self, file: u32) -> Pos
        ensures line { result.line ≡ 1 }
        ensures column { result.col ≤ 14 }
    {
        Pos {
            file,
            line: 1,
            col: self.column_behind(),
        }
    }
}
