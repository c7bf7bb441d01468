//! Reading up to where an encoding is named, over any sink.
ghost use Rattle.std.specs.Prelude.{◌≡◌, IfErr, IfOk, OnErr, OnOk};
ghost use Rattle.html_encodings.specs.Labels.{label_encoding};
ghost use Rattle.html_parser.specs.Read.{Beginning, FailsAfter};
ghost use Rattle.html_decoded_pages.specs.Pauses.{Ends, GoesOn, IsBefore, IsFree, Meets, ReadsIn};
ghost use Rattle.std.specs.Prelude.{encode_utf8_all};

use crate::changing::changed_to;
use html_encodings::{Encoding, encoding_of_label};
use html_tokenizer::{BufferQueue, TokenSink, Tokenizer};
use markup::{ParseFault, Text, TokenizerResult};

/// The encoding that a label names.
fn encoding_named(label: &Text) -> Option<Encoding>
    ensures { result ≡ label_encoding (encode_utf8_all label.now) }
{
    encoding_of_label(label.as_str().as_bytes())
}

/// Has a tokenizer read up to the first `meta` that names an encoding, or all of its input where none does.
pub(crate) fn next_encoding<S: TokenSink>(
    tokenizer: &mut Tokenizer<S>,
    input: &mut BufferQueue,
) -> Result<Option<Encoding>, ParseFault>
    requires free { IsFree S.TokenSink tokenizer.old }
    ensures ok { IfOk result (Meets S.TokenSink tokenizer.old tokenizer.new input.old.characters input.new.characters) }
    ensures err { IfErr result (FailsAfter S.TokenSink tokenizer.old) }
{
    loop {
        match tokenizer.feed(input)? {
            TokenizerResult::Done => return Ok(None),
            TokenizerResult::Script(_) => {}
            TokenizerResult::EncodingIndicator(label) => match encoding_named(&label) {
                Some(encoding) => return Ok(Some(encoding)),
                None => {}
            },
        }
    }
}

/// Has a tokenizer read all of its input, past every pause.
pub(crate) fn read_on<S: TokenSink>(
    tokenizer: &mut Tokenizer<S>,
    input: &mut BufferQueue,
) -> Result<(), ParseFault>
    requires free { IsFree S.TokenSink tokenizer.old }
    ensures ok { OnOk result (GoesOn S.TokenSink tokenizer.old tokenizer.new input.old.characters) }
    ensures err { IfErr result (FailsAfter S.TokenSink tokenizer.old) }
{
    loop {
        if next_encoding(tokenizer, input)?.is_none() {
            return Ok(());
        }
    }
}

/// Has a tokenizer that has read all of its input read the end of it.
pub(crate) fn end<S: TokenSink>(tokenizer: &mut Tokenizer<S>) -> Result<(), ParseFault>
    requires free { IsFree S.TokenSink tokenizer.old }
    ensures ok { OnOk result (Ends S.TokenSink tokenizer.old tokenizer.new.sink) }
    ensures err { IfErr result (FailsAfter S.TokenSink tokenizer.old) }
{
    tokenizer.end()
}

/// Has a tokenizer read a text in an encoding, and its end; or only up to where another encoding is named, which is answered.
pub(crate) fn read_in<S: TokenSink>(
    tokenizer: &mut Tokenizer<S>,
    input: &mut BufferQueue,
    encoding: Encoding,
) -> Result<Option<Encoding>, ParseFault>
    requires free { IsFree S.TokenSink tokenizer.old }
    ensures ok { IfOk result (λ other. (begin : Beginning S.State) → IsBefore S.TokenSink begin tokenizer.old
        → ReadsIn S.TokenSink begin input.old.characters encoding tokenizer.new.sink other) }
    ensures err { IfErr result (FailsAfter S.TokenSink tokenizer.old) }
{
    let Some(named) = next_encoding(tokenizer, input)? else {
        end(tokenizer)?;
        return Ok(None);
    };
    let settled = changed_to(encoding, named);
    if settled != encoding {
        return Ok(Some(settled));
    }
    read_on(tokenizer, input)?;
    end(tokenizer)?;
    Ok(None)
}
