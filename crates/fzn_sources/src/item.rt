// The items of a file.
ghost use Rattle.std.specs.Prelude.{◌≡◌, IfOk};
ghost use Rattle.fzn_lexer.specs.Kept.{token_of};
ghost use Rattle.fzn_sources.specs.Items.{item_spans, begun_or};

use fzn_lexer::{Kept, Parts, Positions, Span, Symbol, TokenList};
use std::alloc::{AllocError, Global};

/// The items of the tokens in order, each from its first token to its `;`. It answers `Err` where memory runs out.
pub fn items_of(alloc: Global, tokens: &TokenList<'_>) -> Result<Vec<Span>, AllocError>
    ensures { IfOk result (λ items. items.items ≡ item_spans tokens.now) }
{
    let Parts { mut file, mut kept } = tokens.parts();
    let mut items = Vec::new(alloc);
    let mut begun = None;
    while let [token, rest @ ..] = kept {
        let item = opened(begun, &mut file, token);
        if token.form.is(Symbol::Semicolon) {
            items.push(Span {
                end: token.end as usize,
                ..item
            })?;
            begun = None;
        } else {
            begun = Some(item);
        }
        kept = rest;
    }
    Ok(items)
}

/// The item that has begun, or else the one that begins with the token.
fn opened(begun: Option<Span>, file: &mut Positions<'_>, token: &Kept) -> Span
    ensures value { result ≡ begun_or begun (token_of file.old token.now).span }
    ensures same { file.new ≡ file.old }
{
    match begun {
        Some(item) => item,
        None => {
            let start = token.start as usize;
            Span {
                start,
                end: token.end as usize,
                position: file.of(start),
            }
        }
    }
}
