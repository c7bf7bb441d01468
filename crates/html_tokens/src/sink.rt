//! What takes tokens.
ghost use Rattle.std.specs.Prelude.{◌≡◌, ◌≤◌, ℕ, Bool, false, List, [], ◌∷◌};
ghost use Rattle.html_tokens.specs.declared.token.Token.{Token};
ghost use Rattle.html_tokens.specs.declared.token.Token.TheVariants.{TagToken};
ghost use Rattle.html_tokens.specs.Sink.{Step, Gives, tells_failed, fails, OnRefused, Counts, SinkLaws};

use crate::replies::TokenSinkResult;
use crate::tags::Tag;
use crate::token::Token;
use markup::ParseFault;

/// What takes tokens, as the tree builder does (HTML Standard, section 13.2.6).
///
/// Contracts see a sink as a state, a number of errors and whether it has failed. A token moves the state by a step,
/// which also gives the reply or refuses the token. What the state leaves out, as the number of errors, no token ever
/// shows.
pub trait TokenSink {
    /// What a reply names a node by.
    type Handle: Drop;

    // What a sink stands for.
    ghost State: { Type 0 };

    ghost view: { Self → State };

    // The states in which a sink may be used. While want of memory has not broken it, each call asks for one and leaves one.
    ghost is_sound: { State → Type 0 };

    // What a token makes of a state. Its line counts for tokens other than text and errors.
    ghost step: { Step State };

    // What becomes of a state at the end.
    ghost ended: { State → State };

    // Whether `<![CDATA[` opens a section.
    ghost asks_cdata: { State → Bool };

    // How many errors were told, and how many the sink itself found. At u64::MAX the number stays.
    ghost errors: { Self → ℕ };

    // What the end makes of the number of errors, by the state.
    ghost errors_ended: { State → ℕ → ℕ };

    // Whether the sink finds no error in a token that is no error.
    ghost is_quiet: { State → Token → Bool };

    // Whether want of memory broke the sink.
    ghost has_failed: { Self → Bool };

    // The names of the `&mut`s that the sink works through. No call changes them, so what they point to is known once
    // they end.
    ghost references: { Self → List ℕ } = { λ _. [] };

    // The number that a handle stands for.
    ghost number: { Self.Handle → ℕ };

    /// Takes a token. `line_number` is the line on which the token ends, counted from 1; text and errors may come with
    /// any.
    ///
    /// A sink that refuses a token, by `TokenInText`, `Ended` or `Shape`, is unchanged. After `Memory` it answers
    /// `Failed` to every token.
    fn process_token(
        &mut self,
        token: Token,
        line_number: u64,
    ) -> Result<TokenSinkResult<Self::Handle>, ParseFault>
        requires { has_failed self.old ≡ false → is_sound (view self.old) }
        ensures gives { Gives number (step (view self.old) token line_number) result (view self.new) }
        ensures failed_before { tells_failed result ≡ has_failed self.old }
        ensures failed_after { has_failed self.new ≡ fails result }
        ensures unchanged { OnRefused result (view self.new ≡ view self.old) }
        ensures same_errors { OnRefused result (errors self.new ≡ errors self.old) }
        ensures counts { Counts (is_quiet (view self.old) token) token result (errors self.old) (errors self.new) }
        ensures sound { has_failed self.new ≡ false → is_sound (view self.new) }
        ensures same_references { references self.new ≡ references self.old };

    /// Takes a tag that is lent, as `process_token` takes the token of it. A sink may use the tag up: who lends it knows
    /// nothing of what is left.
    fn process_tag(
        &mut self,
        tag: &mut Tag,
        line_number: u64,
    ) -> Result<TokenSinkResult<Self::Handle>, ParseFault>
        requires { has_failed self.old ≡ false → is_sound (view self.old) }
        ensures gives { Gives number (step (view self.old) (TagToken tag.old) line_number) result (view self.new) }
        ensures failed_before { tells_failed result ≡ has_failed self.old }
        ensures failed_after { has_failed self.new ≡ fails result }
        ensures unchanged { OnRefused result (view self.new ≡ view self.old) }
        ensures same_errors { OnRefused result (errors self.new ≡ errors self.old) }
        ensures counts { Counts (is_quiet (view self.old) (TagToken tag.old)) (TagToken tag.old) result
            (errors self.old) (errors self.new) }
        ensures sound { has_failed self.new ≡ false → is_sound (view self.new) }
        ensures same_references { references self.new ≡ references self.old }
    {
        let own = tag.take();
        self.process_token(Token::TagToken(own), line_number)
    }

    /// Called once all tokens were told.
    fn end(&mut self)
        requires { has_failed self.old ≡ false → is_sound (view self.old) }
        ensures ends { view self.new ≡ ended (view self.old) }
        ensures same_failed { has_failed self.new ≡ has_failed self.old }
        ensures counts { errors self.new ≡ errors_ended (view self.old) (errors self.old) }
        ensures no_fewer_errors { errors self.old ≤ errors self.new }
        ensures sound { has_failed self.new ≡ false → is_sound (view self.new) }
        ensures same_references { references self.new ≡ references self.old };

    /// Whether there is an adjusted current node that is no HTML element, so that `<![CDATA[` opens a section
    /// (HTML Standard, section 13.2.5.42).
    fn adjusted_current_node_present_but_not_in_html_namespace(&self) -> bool
        requires { has_failed self.now ≡ false → is_sound (view self.now) }
        ensures { result ≡ asks_cdata (view self.now) };

    ghost laws: { SinkLaws is_sound step ended is_quiet };
}

impl<S: TokenSink> TokenSink for &mut S {
    type Handle = S::Handle;

    ghost State = { S.State };

    ghost view = { λ s. S.view s.now };

    ghost is_sound = { S.is_sound };

    ghost step = { S.step };

    ghost ended = { S.ended };

    ghost asks_cdata = { S.asks_cdata };

    ghost errors = { λ s. S.errors s.now };

    ghost errors_ended = { S.errors_ended };

    ghost is_quiet = { S.is_quiet };

    ghost has_failed = { λ s. S.has_failed s.now };

    ghost references = { λ s. s.ghost_name ∷ S.references s.now };

    ghost number = { S.number };

    ghost laws = { S.laws };

    fn process_token(
        &mut self,
        token: Token,
        line_number: u64,
    ) -> Result<TokenSinkResult<S::Handle>, ParseFault> {
        (**self).process_token(token, line_number)
    }

    fn process_tag(
        &mut self,
        tag: &mut Tag,
        line_number: u64,
    ) -> Result<TokenSinkResult<S::Handle>, ParseFault> {
        (**self).process_tag(tag, line_number)
    }

    fn end(&mut self) {
        (**self).end();
    }

    fn adjusted_current_node_present_but_not_in_html_namespace(&self) -> bool {
        (**self).adjusted_current_node_present_but_not_in_html_namespace()
    }
}
