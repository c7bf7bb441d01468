//! Whether the list of active formatting elements (HTML Standard, section 13.2.4.3) and the form element pointer (section 13.2.4.4) stay
//! those of the open elements.
ghost use Rattle.std.specs.Prelude.{◌≡◌, List, ℕ, false, true};
ghost use Rattle.std.specs.Str.{bytes_eq, chars};
ghost use Rattle.html_rules.specs.State.{Open, current_is};
ghost use Rattle.html_faithful.specs.Checks.{closes_so, is_kept_so, opens_so};
ghost use Rattle.html_faithful.specs.Spots.{Spot as HarmlessSpot};
ghost use Rattle.html_faithful_judge.specs.Mades.{change_of, form_change_of, made_as};
ghost use Rattle.html_faithful_walk.specs.Checks.{closing_of, current_marked, current_pointed, form_below, lists_by, lists_opened_at};
ghost use Rattle.html_faithful_walk.specs.Checks.{points_by, points_opened_at};

use html_faithful_judge::made::{Change, FormChange, Made};
use html_faithful_judge::spot::Spot;
use html_rules::TagSet;
use markup::LocalName;

/// What is known of the current node, which a token may close.
#[derive(Clone, Copy)]
pub(crate) struct Closing {
    /// Whether there is one.
    pub there: bool,
    /// Whether it begins a list of formatting elements of its own.
    pub marked: bool,
    /// Whether it is a formatting element.
    pub formatting: bool,
    /// Whether the form element pointer points to it.
    pub pointed: bool,
    /// Whether the pointer points to a form below it, if it points to it.
    pub form_below: bool,
}

/// Whether the current node begins a list of formatting elements of its own.
fn is_marked(spot: &Spot) -> bool
    ensures { result ≡ current_marked spot.now.stack.open_elems }
{
    spot.current_is(TagSet::AppletMarqueeObject)
        || spot.current_is(TagSet::TdTh)
        || spot.current_is(TagSet::Caption)
        || spot.current_is(TagSet::Template)
}

/// Whether the form element pointer points to the current node: whether that is a form that stands in no template.
fn is_pointed(spot: &Spot) -> bool
    ensures { result ≡ current_pointed spot.now.stack.open_elems }
{
    spot.current_is(TagSet::Form) && !spot.context_below().in_template
}

/// Whether a form is open below the current node, to which the pointer points.
fn has_form_below(spot: &Spot) -> bool
    ensures { result ≡ form_below spot.now.stack.open_elems }
{
    is_pointed(spot) && spot.context_below().form.is_some()
}

/// What is known of the current node.
pub(crate) fn what_closes(spot: &Spot) -> Closing
    ensures { result ≡ closing_of spot.now.stack.open_elems }
{
    Closing {
        there: spot.is_any_open(),
        marked: is_marked(spot),
        formatting: spot.current_is(TagSet::FormattingEnd),
        pointed: is_pointed(spot),
        form_below: has_form_below(spot),
    }
}

impl Closing {
    /// Whether the list stays that of the open elements where the current node was closed.
    fn lists(self, change: Change) -> bool
        ensures { result ≡ lists_by self (change_of change) }
    {
        match change {
            Change::EntryLeft => !self.marked,
            Change::MarkerLeft => self.marked,
            Change::Unchanged => !self.formatting && !self.marked,
            _ => false,
        }
    }

    /// Whether the pointer does: no other form is open below the one that was closed.
    fn points(self, form: FormChange) -> bool
        ensures { result ≡ points_by self (form_change_of form) }
    {
        match form {
            FormChange::FormForgotten => self.pointed && !self.form_below,
            FormChange::FormKept => !self.pointed,
            FormChange::FormSet => false,
        }
    }

    /// Whether both do.
    fn is_so(self, change: Change, form: FormChange) -> bool
        ensures { (path : List Open) → self ≡ closing_of path → result ≡ closes_so path (change_of change) (form_change_of form) }
    {
        self.there && (self.lists(change) && self.points(form))
    }
}

/// Whether the current node has a name.
pub(crate) fn is_named(spot: &Spot, name: &LocalName) -> bool
    ensures { result ≡ current_is (λ x. bytes_eq name.now x.name) spot.now.stack.open_elems }
{
    match spot.as_stack().open_elems().last() {
        Some(element) => is_same(name.as_str(), element.name.as_str()),
        None => false,
    }
}

/// Whether two texts are the same.
fn is_same(one: &str, other: &str) -> bool
    ensures { result ≡ bytes_eq (chars one.now) (chars other.now) }
{
    one == other
}

/// Whether the list stays that of the open elements where the current node was opened by a tag of that name: a formatting element is
/// listed, which is no link in a link, and a marker where an element is marked.
fn lists_opened(spot: &Spot, name: &LocalName, change: Change) -> bool
    ensures { result ≡ lists_opened_at name.now spot.now.stack.open_elems (change_of change) }
{
    match change {
        Change::EntryPushed => {
            spot.current_is(TagSet::FormattingEnd)
                && !is_marked(spot)
                && (is_named(spot, name)
                    && !(spot.current_is(TagSet::A) && spot.context_below().link_open))
        }
        Change::MarkerPushed => is_marked(spot),
        Change::Unchanged => !spot.current_is(TagSet::FormattingEnd) && !is_marked(spot),
        _ => false,
    }
}

/// Whether the form element pointer stays that of the open elements where the current node was opened.
fn points_opened(spot: &Spot, form: FormChange) -> bool
    ensures { result ≡ points_opened_at spot.now.stack.open_elems (form_change_of form) }
{
    match form {
        FormChange::FormSet => is_pointed(spot),
        FormChange::FormKept => !is_pointed(spot),
        FormChange::FormForgotten => false,
    }
}

/// Whether both do, and no sink is asked anything of the element.
fn opens_so(spot: &Spot, name: &LocalName, change: Change, form: FormChange) -> bool
    ensures { result ≡ opens_so name.now spot.now.stack.open_elems (change_of change) (form_change_of form) }
{
    spot.is_any_open()
        && (!spot.current_is(TagSet::AnnotationXml)
            && (lists_opened(spot, name, change) && points_opened(spot, form)))
}

/// Whether both stay those of the open elements where a token of that name closed nothing.
pub(crate) fn is_kept_open(made: &Made, name: &LocalName) -> bool
    ensures { (p : HarmlessSpot) → made.now.closed ≡ false → result ≡ is_kept_so name.now p (made_as made.now) }
{
    if made.is_opened() {
        opens_so(&made.spot, name, made.change, made.form)
    } else {
        made.change == Change::Unchanged && made.form == FormChange::FormKept
    }
}

/// Whether both do where it closed the current node, of which this was known.
pub(crate) fn is_kept_closed(made: &Made, closing: Closing) -> bool
    ensures { (name : List ℕ) (p : HarmlessSpot) → closing ≡ closing_of p.path → made.now.closed ≡ true
        → result ≡ is_kept_so name p (made_as made.now) }
{
    closing.is_so(made.change, made.form)
}
