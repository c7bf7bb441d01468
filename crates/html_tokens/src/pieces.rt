//! What follows for every sink from what every sink keeps: text in any pieces is as in one, and an error changes nothing.
ghost use Rattle.std.specs.Prelude.{◌≡◌, ◌<◌, ℕ, Ok, IfErr, OnOk, IsErr, false, vec_len};
ghost use Rattle.html_tokens.specs.Pieces.{joined, Refuses};
ghost use Rattle.html_tokens.specs.Sink.{tells_failed, fails, OnRefused, IsRefusal, one_more};
ghost use Rattle.html_tokens.specs.declared.replies.TokenSinkResult.TheVariants.{Continue};
ghost use Rattle.html_tokens.specs.declared.token.Token.{Token};
ghost use Rattle.html_tokens.specs.declared.token.Token.TheVariants.{CharacterTokens, ParseError};

use crate::sink::TokenSink;
use crate::token::Token;
use markup::{ParseFault, Text};
use std::borrow::CowStr;

/// Tells a text in pieces, each with a line of its own. The sink takes them as it would take the whole text with any
/// line: the fault at a piece that it refuses is the one by which it would refuse the whole.
pub fn emit_pieces<S: TokenSink>(sink: &mut S, pieces: Vec<(Text, u64)>) -> Result<(), ParseFault>
where
    S::Handle: Drop,
    requires sound { S.is_sound (S.view sink.old) }
    requires some { 0 < vec_len pieces }
    ensures whole { (line : ℕ)
        → OnOk result (S.step (S.view sink.old) (CharacterTokens (joined pieces.items)) line ≡ Ok (S.view sink.new, Continue)) }
    ensures refused { (line : ℕ)
        → IfErr result (λ fault. Refuses (S.step (S.view sink.old) (CharacterTokens (joined pieces.items)) line) fault) }
    ensures failed_before { tells_failed result ≡ S.has_failed sink.old }
    ensures failed_after { S.has_failed sink.new ≡ fails result }
    ensures sound { S.has_failed sink.new ≡ false → S.is_sound (S.view sink.new) }
{
    for (text, line) in pieces {
        if let Err(fault) = sink.process_token(Token::CharacterTokens(text), line) {
            return Err(fault);
        }
    }
    Ok(())
}

/// Tells an error. The sink counts it and is as it was; it refuses an error only where it refuses every token.
pub fn report_error<S: TokenSink>(
    sink: &mut S,
    words: CowStr<'static>,
    line_number: u64,
) -> Result<(), ParseFault>
where
    S::Handle: Drop,
    requires { S.is_sound (S.view sink.old) }
    ensures same { OnOk result (S.view sink.new ≡ S.view sink.old) }
    ensures counted { OnOk result (S.errors sink.new ≡ one_more (S.errors sink.old)) }
    ensures refusal { IfErr result (λ fault. Refuses (S.step (S.view sink.old) (ParseError words.entry) line_number) fault) }
    ensures refused { IfErr result (λ fault. IsRefusal fault → (token : Token) (line : ℕ) → IsErr (S.step (S.view sink.old) token line)) }
    ensures refused_same { OnRefused result (S.view sink.new ≡ S.view sink.old) }
    ensures failed_before { tells_failed result ≡ S.has_failed sink.old }
    ensures failed_after { S.has_failed sink.new ≡ fails result }
    ensures sound { S.has_failed sink.new ≡ false → S.is_sound (S.view sink.new) }
{
    drop(sink.process_token(Token::ParseError(words), line_number)?);
    Ok(())
}
