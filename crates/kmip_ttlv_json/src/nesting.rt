//! JSON that nests too deep to be read.

ghost use Rattle.std.specs.Prelude.{◌≡◌, ◌<◌, ◌^◌, IfOk, is_some};
ghost use Rattle.json.specs.Lex.{tokens};
ghost use Rattle.json.specs.Reads.{token_of};
ghost use Rattle.kmip_ttlv_json.specs.Readings.{depth_behind, is_deep};

use json::{Reader, Scratch, Token};
use std::alloc::{AllocError, Allocator};

// How many brackets are open behind a token, where so many are in front of it.
fn depth_behind(depth: usize, token: Token<'_>) -> usize
    requires { depth < 2 ^ 63 }
    ensures { result ≡ depth_behind depth (token_of token.entry) }
{
    match token {
        Token::BeginObject | Token::BeginArray => depth + 1,
        Token::EndObject | Token::EndArray => depth.saturating_sub(1),
        _ => depth,
    }
}

/// Returns how many tokens are in front of the first bracket of a text that opens in 127 others, if there is one.
pub fn first_deep<A: Allocator>(
    text: &str,
    scratch: &mut Scratch<A>,
) -> Result<Option<usize>, AllocError>
    ensures { IfOk result (λ at. is_some at ≡ is_deep 0 (tokens text.now)) }
{
    let mut reader = Reader::new(text, scratch)?;
    let mut depth = 0;
    let mut at = 0usize;
    'tokens: while let Some(token) = reader.next() {
        depth = depth_behind(depth, token);
        if depth > 127 {
            return Ok(Some(at));
        }
        at = at.saturating_add(1);
    }
    Ok(None)
}
