//! Which nodes are read as they are written where they stand, and where the next ones stand then.
ghost use Rattle.std.specs.Prelude.{◌≡◌, Bool, IfErr, IfOk, codes, true};
ghost use Rattle.std.specs.Str.{bytes_eq, chars};
ghost use Rattle.markup.specs.Trees.{Comment, Doctype, Nothing, Text, Trees};
ghost use Rattle.markup.specs.declared.fault.ParseFault.TheVariants.{Memory};
ghost use Rattle.html_forest.specs.Views.{attributes, characters};
ghost use Rattle.html_faithful.specs.Harmless.{and_then};
ghost use Rattle.html_faithful.specs.Walk.{comment_put};
ghost use Rattle.html_faithful_judge.specs.Mades.{made_as};
ghost use Rattle.html_faithful_judge.specs.Spots.{spot_of};
ghost use Rattle.html_faithful_walk.specs.First.{comment_read, doctype_in, text_in, text_read};
ghost use Rattle.html_faithful_walk.specs.Firsts.{IsEntered, IsEnteredBy, comes_of, left_by, point_if, point_of};
ghost use Rattle.html_faithful_walk.specs.Steps.{parent_of, spot_if};
ghost use Rattle.html_faithful_walk.specs.Walking.{Enters, Opens, Passes, TakesText, after_stand, finish_by, may_end, may_hold, walk_at};

use crate::names::is_void;
use crate::parents::Parent;
use crate::stand::{After, Inside, Stand, what_may_stand};
use crate::steps::{finish, is_written_so, start};
use crate::texts::{is_text, put_comment, put_text};
use html_faithful_judge::made::Made;
use html_faithful_judge::{is_comment_text, is_raw_text};
use html_forest::{AttributesRef, TextRef};
use markup::{ParseFault, QualName, QuirksMode};
use std::alloc::Global;

/// What is known where the next node stands.
#[derive(Drop)]
pub(crate) struct Judge<'a> {
    /// What the rules made of the last token.
    pub made: Made,
    /// Where the next node stands in its parent.
    pub stand: Stand<'a>,
}

/// Whether a name is `html`.
pub(crate) fn is_html(name: &str) -> bool
    ensures { result ≡ bytes_eq (chars name.now) (codes "html") }
{
    name == "html"
}

impl<'a> Judge<'a> {
    /// A text comes that may come next, and these after it.
    fn take_text(
        &mut self,
        alloc: Global,
        text: TextRef<'_>,
        inside: Inside<'a>,
    ) -> Result<bool, ParseFault>
        ensures ok { IfOk result (λ goes_on. TakesText (characters text.entry) inside.entry self.old.stand (spot_of self.old.made.spot)
            self.new.stand (spot_of self.new.made.spot) goes_on) }
        ensures read { IfOk result (λ goes_on. text_in (comes_of inside.entry) (characters text.entry)
            (point_of self.old.stand (spot_of self.old.made.spot))
            ≡ point_if goes_on (point_of self.new.stand (spot_of self.new.made.spot))) }
        ensures fault { IfErr result (λ fault. fault ≡ Memory) }
    {
        let stand = self.stand;
        if !is_text(stand.after_text, stand.drops, text.as_str()) {
            return Ok(false);
        }
        if !stand.parent.is_current(&self.made.spot) {
            return Ok(false);
        }
        self.stand = Stand {
            parent: stand.parent,
            after_text: true,
            drops: false,
            inside,
        };
        put_text(&mut self.made, alloc, text.as_str())
    }

    /// A text comes; answers whether it is read as it is written.
    pub(crate) fn text(&mut self, alloc: Global, text: TextRef<'_>) -> Result<bool, ParseFault>
        ensures ok { IfOk result (λ goes_on. Passes (Text (characters text.entry)) self.old.stand (spot_of self.old.made.spot)
            self.new.stand (spot_of self.new.made.spot) goes_on) }
        ensures read { IfOk result (λ goes_on. text_read (characters text.entry) (point_of self.old.stand (spot_of self.old.made.spot))
            ≡ point_if goes_on (point_of self.new.stand (spot_of self.new.made.spot))) }
        ensures fault { IfErr result (λ fault. fault ≡ Memory) }
    {
        match self.stand.inside.after_text(alloc, text)? {
            Some(inside) => self.take_text(alloc, text, inside),
            None => Ok(false),
        }
    }

    /// A comment comes that may come next.
    fn take_comment(&mut self, alloc: Global, text: TextRef<'_>) -> Result<bool, ParseFault>
        ensures ok { IfOk result (λ goes_on. comment_put (parent_of self.old.stand.parent) (characters text.entry)
            (spot_of self.old.made.spot)
            ≡ spot_if goes_on (spot_of self.new.made.spot)) }
        ensures stand { self.new.stand ≡ after_stand self.old.stand.parent }
        ensures fault { IfErr result (λ fault. fault ≡ Memory) }
    {
        let parent = self.stand.parent;
        self.stand = Stand::after(parent);
        put_comment(&mut self.made, alloc, parent, text.as_str())
    }

    /// A comment comes; answers whether it is read as it is written.
    pub(crate) fn comment(&mut self, alloc: Global, text: TextRef<'_>) -> Result<bool, ParseFault>
        ensures ok { IfOk result (λ goes_on. Passes (Comment (characters text.entry)) self.old.stand (spot_of self.old.made.spot)
            self.new.stand (spot_of self.new.made.spot) goes_on) }
        ensures read { IfOk result (λ goes_on. comment_read (characters text.entry) (point_of self.old.stand (spot_of self.old.made.spot))
            ≡ point_if goes_on (point_of self.new.stand (spot_of self.new.made.spot))) }
        ensures fault { IfErr result (λ fault. fault ≡ Memory) }
    {
        if !is_comment_text(alloc, text.as_str())? {
            return Ok(false);
        }
        match self.stand.inside {
            Inside::Start => Ok(true),
            Inside::Any => self.take_comment(alloc, text),
            Inside::Raw(..) => Ok(false),
            Inside::Done => Ok(false),
        }
    }

    /// A doctype comes; answers whether it may, and is read with the name that it is written with.
    pub(crate) fn doctype(
        &mut self,
        name: TextRef<'_>,
        public_id: TextRef<'_>,
        system_id: TextRef<'_>,
    ) -> bool
        ensures ok { Passes (Doctype (characters name.entry) (characters public_id.entry) (characters system_id.entry)) self.old.stand
            (spot_of self.old.made.spot) self.new.stand (spot_of self.new.made.spot) result }
        ensures read { doctype_in (comes_of self.old.stand.inside) (characters name.entry)
            (point_of self.old.stand (spot_of self.old.made.spot))
            ≡ point_if result (point_of self.new.stand (spot_of self.new.made.spot)) }
    {
        match self.stand.inside {
            Inside::Start => {
                if !is_html(name.as_str()) {
                    return false;
                }
                self.stand.inside = Inside::Any;
                self.made.spot.quirks_mode = QuirksMode::NoQuirks;
                true
            }
            Inside::Any => false,
            Inside::Raw(..) => false,
            Inside::Done => false,
        }
    }

    /// Whether an element may come, by what comes next and by what it stands in.
    fn may_hold(&self, name: &QualName) -> bool
        ensures { result ≡ may_hold self.now.stand name.now (spot_of self.now.made.spot) }
    {
        self.stand.inside.takes_elements()
            && (self.stand.parent.is_current(&self.made.spot) && self.stand.parent.may_hold(name))
    }

    /// An element comes, of which its start tag was taken.
    fn enter(
        &mut self,
        alloc: Global,
        scripting: bool,
        name: &'a QualName,
    ) -> Result<Option<After<'a>>, ParseFault>
        ensures ok { IfOk result (λ after. Enters scripting name.entry (made_as self.old.made) self.old.stand self.new.stand after) }
        ensures read { IfOk result (λ after. IsEnteredBy scripting name.entry.now (made_as self.old.made) (parent_of self.old.stand.parent)
            (point_of self.new.stand (spot_of self.old.made.spot)) after) }
        ensures same { self.new.made ≡ self.old.made }
        ensures fault { IfErr result (λ fault. fault ≡ Memory) }
    {
        if !is_written_so(scripting, name, self.made.raw) {
            return Ok(None);
        }
        let void = is_void(name);
        match what_may_stand(&self.made, alloc, name, void)? {
            Some(inside) => {
                let parent = self.stand.parent;
                self.stand = Stand {
                    parent: parent.below(),
                    after_text: false,
                    drops: self.made.drops_line_feed,
                    inside,
                };
                Ok(Some(After::of(name, parent, void)))
            }
            None => Ok(None),
        }
    }

    /// An element comes; answers what comes after the nodes in it, if its start tag is read as it is written.
    pub(crate) fn element(
        &mut self,
        alloc: Global,
        scripting: bool,
        name: &'a QualName,
        attrs: AttributesRef<'_>,
        template: bool,
    ) -> Result<Option<After<'a>>, ParseFault>
        ensures ok { IfOk result (λ after. Opens scripting name.now (attributes attrs.entry) template self.old.stand
            (spot_of self.old.made.spot)
            self.new.stand (spot_of self.new.made.spot) after) }
        ensures read { IfOk result (λ after. IsEntered scripting name.now (attributes attrs.entry) template
            (point_of self.old.stand (spot_of self.old.made.spot)) (point_of self.new.stand (spot_of self.new.made.spot)) after) }
        ensures fault { IfErr result (λ fault. fault ≡ Memory) }
    {
        if !self.may_hold(name) {
            return Ok(None);
        }
        if !start(&mut self.made, alloc, name, attrs.as_slice(), template)? {
            return Ok(None);
        }
        self.enter(alloc, scripting, name)
    }

    /// Whether the nodes in a parent may end here.
    pub(crate) fn may_end(&self, alloc: Global) -> Result<bool, ParseFault>
        ensures ok { IfOk result (λ ends. ends ≡ may_end self.now.stand.inside) }
        ensures fault { IfErr result (λ fault. fault ≡ Memory) }
    {
        match self.stand.inside {
            Inside::Start => Ok(false),
            Inside::Any => Ok(true),
            Inside::Raw(kind, name) => is_raw_text(alloc, kind, name.local.as_str(), ""),
            Inside::Done => Ok(true),
        }
    }

    /// The nodes in an element end; answers whether they may, and the element ends there as it is written.
    pub(crate) fn leave(&mut self, alloc: Global, after: After<'a>) -> Result<bool, ParseFault>
        ensures ok { IfOk result (λ goes_on. (scripting : Bool)
            → and_then (walk_at scripting self.old.stand Nothing (spot_of self.old.made.spot)) (λ p. finish_by after.entry.finishes p)
            ≡ spot_if goes_on (spot_of self.new.made.spot)) }
        ensures stand { IfOk result (λ goes_on. goes_on ≡ true → self.new.stand ≡ after_stand after.entry.parent) }
        ensures read { IfOk result (λ goes_on. left_by after.entry (point_of self.old.stand (spot_of self.old.made.spot))
            ≡ point_if goes_on (point_of self.new.stand (spot_of self.new.made.spot))) }
        ensures fault { IfErr result (λ fault. fault ≡ Memory) }
    {
        if !self.may_end(alloc)? {
            return Ok(false);
        }
        self.stand = Stand::after(after.parent);
        match after.finishes {
            Some(name) => finish(&mut self.made, alloc, name),
            None => Ok(true),
        }
    }
}
