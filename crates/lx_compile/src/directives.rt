//! The bodies of directives.
ghost use Rattle.std.specs.Prelude.{◌≡◌, ℕ, List, IfOk, MatchResult, map, true};
ghost use Rattle.lx_base.specs.declared.settings.Options.{Options};
ghost use Rattle.lx_base.specs.declared.places.Pos.{Pos};
ghost use Rattle.lx_base.specs.declared.faults.Stop.{Stop};
ghost use Rattle.lx_forms.specs.Seen.{lexeme_view, lexemes_view};
ghost use Rattle.lx_forms.specs.Lexemes.{lexemes_of};
ghost use Rattle.lx_parse.specs.Blocks.{has_tokens};
ghost use Rattle.lx_parse.specs.declared.items.Item.{Item};
ghost use Rattle.lx_rules.specs.Environments.{Environment};
ghost use Rattle.lx_token.specs.declared.list.Token.{Token};
ghost use Rattle.lx_compile.specs.Blocks.{IsRead, StopsAt};
ghost use Rattle.lx_compile.specs.Directives.{directive_of, format_of, is_directive, string_bytes, strings_of};
ghost use Rattle.lx_compile.specs.Emittable.{IsNear};

use crate::parts::Directive;
use lx_base::{BlockKind, ByteText, Memory, Pos, Stop};
use lx_ccode::Format;
use lx_forms::lexemes::{Lexeme, Lexemes};
use lx_parse::{BlockTree, Item, parse};
use lx_rules::bytes_of;
use lx_token::{TokenList, characters_of, tokens};
use std::alloc::Global;

/// The bytes of a string, if each of its characters is one.
fn string_bytes(alloc: Global, value: &Lexeme<'_>) -> Result<Option<ByteText>, Memory>
    ensures { IfOk result (λ bytes. bytes ≡ string_bytes (lexeme_view value.now)) }
{
    let characters = characters_of(alloc, value.text)?;
    bytes_of(alloc, characters.as_slice())
}

/// The strings that items give.
fn strings_of(
    alloc: Global,
    lexemes: &Lexemes<'_>,
    items: &[Item],
) -> Result<Vec<Option<ByteText>>, Memory>
    ensures { IfOk result (λ strings. strings.items ≡ strings_of (lexemes_view lexemes.now) items.now) }
{
    let mut strings = Vec::new(alloc);
    for item in items {
        if let Item::Text { value } = item {
            strings.push(string_bytes(alloc, &lexemes.at(*value as usize))?)?;
        }
    }
    Ok(strings)
}

/// The format of a list and its separator, which may be left out, if the characters of both are bytes.
fn format_of(alloc: Global, strings: Vec<Option<ByteText>>) -> Option<Format>
    ensures { result ≡ format_of strings.items }
{
    let mut rest = strings.into_iter();
    match (rest.next(), rest.next(), rest.next()) {
        (Some(Some(format)), None, _) => Some(Format {
            format,
            separator: ByteText::from_vec(Vec::new(alloc)),
        }),
        (Some(Some(format)), Some(Some(separator)), None) => Some(Format { format, separator }),
        _ => None,
    }
}

/// What the directive of a kind asks for.
fn directive_of(alloc: Global, kind: BlockKind, strings: Vec<Option<ByteText>>) -> Directive
    ensures { result ≡ directive_of kind strings.items }
{
    match kind {
        BlockKind::Max => Directive::Max,
        BlockKind::MaxNmatch => Directive::MaxNmatch,
        BlockKind::Stags => Directive::Stags(format_of(alloc, strings)),
        BlockKind::Mtags => Directive::Mtags(format_of(alloc, strings)),
        BlockKind::Types => Directive::Types,
        BlockKind::GetState => Directive::GetState,
        _ => Directive::Nothing,
    }
}

/// The tokens and the items of a block's body, which begins at `start`; or the first fault of it.
pub(crate) fn read(
    alloc: Global,
    kind: BlockKind,
    body: &[u8],
    start: Pos,
) -> Result<(TokenList, BlockTree), Stop>
    requires near { IsNear body.now start }
    requires kind { has_tokens kind ≡ true }
    ensures { MatchResult result
        (λ read. IsRead kind body.now start read.0 read.1.items)
        (λ stopped. (options : Options) (environment : Environment) (at : Pos) → StopsAt options environment kind body.now at start stopped) }
{
    let tokens = tokens(alloc, body, start)?;
    let tree = parse(alloc, body, &tokens, kind, start)?;
    Ok((tokens, tree))
}

/// What a directive asks for, whose body begins at `start`.
///
/// It refuses with the first fault of the body; `Memory` may be answered, and no clause ties it to a cause.
pub(crate) fn read_directive(
    alloc: Global,
    kind: BlockKind,
    body: &[u8],
    start: Pos,
) -> Result<Directive, Stop>
    requires near { IsNear body.now start }
    requires kind { is_directive kind ≡ true }
    ensures { MatchResult result
        (λ directive. (tokens : List Token) × (items : List Item) × IsRead kind body.now start tokens items
        × (directive ≡ directive_of kind (strings_of (lexemes_of body.now tokens) items)))
        (λ stopped. (options : Options) (environment : Environment) (at : Pos) → StopsAt options environment kind body.now at start stopped) }
{
    let (tokens, tree) = read(alloc, kind, body, start)?;
    let lexemes = Lexemes {
        body,
        tokens: tokens.as_slice(),
    };
    let strings = strings_of(alloc, &lexemes, tree.items.as_slice())?;
    Ok(directive_of(alloc, kind, strings))
}
