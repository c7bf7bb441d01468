//! Whether the document of a forest is plain.
ghost use Rattle.std.specs.Prelude.{◌≡◌, ◌&&◌, ◌∷◌, ◌++◌, [], IfErr, IfOk, OnOk, false};
ghost use Rattle.markup.specs.Forest.{children_of};
ghost use Rattle.markup.specs.Named.{IsTree};
ghost use Rattle.markup.specs.declared.fault.ParseFault.TheVariants.{Memory};
ghost use Rattle.html_plain.specs.Grammar.{is_plain_forest, is_plain_start};
ghost use Rattle.html_forest.specs.Views.{attributes, characters};
ghost use Rattle.html_forest.specs.Judging.{AreChildrenTaken, GoesOn, IsAround, IsAscent, IsAfterComment, IsAfterDoctype};
ghost use Rattle.html_forest.specs.Judging.{IsAfterText, IsElementTaken, IsTaken, around_of, opens_here, takes_comment_here};
ghost use Rattle.html_forest.specs.Judging.{takes_here};

use crate::children::Children;
use crate::forest::Forest;
use crate::node::{AttributesRef, NodeData, NodeId, TextRef};
use html_plain::attributes::are_plain_attributes;
use html_plain::texts::{is_plain_comment, is_plain_doctype, is_plain_text, takes_text};
use html_plain::{PlainElement, PlainPlace};
use markup::{ParseFault, QualName};
use std::alloc::Global;
use std::mem;

/// Where the next node stands, and whether a text stands just before it.
#[derive(Clone, Copy, Debug)]
pub(crate) struct Stand {
    pub place: PlainPlace,
    pub after_text: bool,
}

/// Where what stands in an element begins, and where what stands after it does.
#[derive(Clone, Copy, Debug)]
pub(crate) struct Around {
    pub inside: Stand,
    pub behind: Stand,
}

/// Nodes that wait while those before them are judged.
#[derive(Debug, Drop)]
pub(crate) struct Level<'a> {
    // Where the first of them stands; none where that is wherever those before them end.
    pub behind: Option<Stand>,
    pub rest: Children<'a>,
}

impl Stand {
    /// Whether a text may stand here.
    fn takes(self, text: TextRef<'_>) -> bool
        ensures { result ≡ takes_here self (characters text.entry) }
    {
        !self.after_text
            && (is_plain_text(text.as_str()) && takes_text(self.place.text_kind(), text.as_str()))
    }

    /// Where the next node stands after a text, if that may stand here.
    fn place_after_text(self, text: TextRef<'_>) -> Option<Stand>
        ensures { IsAfterText self (characters text.entry) result }
    {
        if self.takes(text) {
            Some(Stand {
                place: self.place.place_after_text(),
                after_text: true,
            })
        } else {
            None
        }
    }

    /// Whether a comment may stand here.
    fn takes_comment(self, text: TextRef<'_>) -> bool
        ensures { result ≡ takes_comment_here self (characters text.entry) }
    {
        self.place.takes_comments() && is_plain_comment(text.as_str())
    }

    /// Where the next node stands after a comment, if that may stand here.
    fn after_comment(self, text: TextRef<'_>) -> Option<Stand>
        ensures { IsAfterComment self (characters text.entry) result }
    {
        if self.takes_comment(text) {
            Some(Stand {
                place: self.place,
                after_text: false,
            })
        } else {
            None
        }
    }

    /// Whether a doctype may stand here.
    fn opens(self, name: TextRef<'_>, public_id: TextRef<'_>, system_id: TextRef<'_>) -> bool
        ensures { result ≡ opens_here self (characters name.entry) (characters public_id.entry) (characters system_id.entry) }
    {
        self.place.is_first()
            && is_plain_doctype(name.as_str(), public_id.as_str(), system_id.as_str())
    }

    /// Where the next node stands after a doctype, if that may stand here.
    fn after_doctype(
        self,
        name: TextRef<'_>,
        public_id: TextRef<'_>,
        system_id: TextRef<'_>,
    ) -> Option<Stand>
        ensures { IsAfterDoctype self (characters name.entry) (characters public_id.entry) (characters system_id.entry) result }
    {
        if self.opens(name, public_id, system_id) {
            Some(Stand {
                place: PlainPlace::BeforeRoot,
                after_text: false,
            })
        } else {
            None
        }
    }

    /// Whether an element with these attributes that is no template may stand here.
    fn holds(
        self,
        alloc: Global,
        element: PlainElement,
        attrs: AttributesRef<'_>,
    ) -> Result<bool, ParseFault>
        ensures ok { IfOk result (λ holds. holds ≡ is_plain_start self.place (attributes attrs.entry) false element) }
        ensures fault { IfErr result (λ fault. fault ≡ Memory) }
    {
        if self.place.holds(element) {
            are_plain_attributes(alloc, attrs.as_slice())
        } else {
            Ok(false)
        }
    }

    /// Where nodes stand in and after an element that is no template, if it may stand here.
    fn around(
        self,
        alloc: Global,
        name: &QualName,
        attrs: AttributesRef<'_>,
    ) -> Result<Option<Around>, ParseFault>
        ensures ok { IfOk result (λ around. IsAround self name.now (attributes attrs.entry) around) }
        ensures fault { IfErr result (λ fault. fault ≡ Memory) }
    {
        match PlainElement::of(name) {
            Some(element) => {
                if self.holds(alloc, element, attrs)? {
                    Ok(Some(self.around_element(element)))
                } else {
                    Ok(None)
                }
            }
            None => Ok(None),
        }
    }

    /// Where nodes stand in and after an element that may stand here.
    fn around_element(self, element: PlainElement) -> Around
        ensures { result ≡ around_of self element }
    {
        Around {
            inside: Stand {
                place: self.place.inside(element),
                after_text: false,
            },
            behind: Stand {
                place: self.place.place_after_element(),
                after_text: false,
            },
        }
    }
}

/// A walk over the nodes of a forest in the order in which they stand.
#[derive(Debug, Drop)]
pub(crate) struct Judge<'a> {
    pub stand: Stand,
    // The nodes that come next.
    pub rest: Children<'a>,
    // Those that come after them, the last first.
    pub waiting: Vec<Level<'a>>,
}

impl<'a> Judge<'a> {
    /// What stands in a node comes next, and the nodes that would have come wait.
    fn descend(
        &mut self,
        forest: &'a Forest,
        id: NodeId,
        behind: Option<Stand>,
    ) -> Result<(), ParseFault>
        ensures waiting { OnOk result (self.new.waiting.items ≡ self.old.waiting.items ++ record {
          behind = behind;
          rest = self.old.rest;
        } ∷ []) }
        ensures rest { OnOk result (self.new.rest ≡ children_of forest.now id) }
        ensures stand { OnOk result (self.new.stand ≡ self.old.stand) }
        ensures fault { IfErr result (λ fault. fault ≡ Memory) }
    {
        self.waiting.reserve(1)?;
        let rest = mem::replace(&mut self.rest, forest.children(id));
        self.waiting.push_reserved(Level { behind, rest });
        Ok(())
    }

    /// The nodes that wait come next, if those that came may end here.
    fn ascend(&mut self, level: Level<'a>) -> bool
        ensures stand { IsAscent level.entry.behind self.old.stand self.new.stand result }
        ensures rest { self.new.rest ≡ level.entry.rest }
        ensures waiting { self.new.waiting ≡ self.old.waiting }
    {
        let Level { behind, rest } = level;
        self.rest = rest;
        match behind {
            Some(stand) => {
                let may_end = self.stand.place.may_end();
                self.stand = stand;
                may_end
            }
            None => true,
        }
    }

    /// Goes on after a node that stands here, if it may.
    fn go_on(&mut self, behind: Option<Stand>) -> bool
        ensures stand { GoesOn behind self.new.stand result }
        ensures rest { self.new.rest ≡ self.old.rest }
        ensures waiting { self.new.waiting ≡ self.old.waiting }
    {
        match behind {
            Some(stand) => {
                self.stand = stand;
                true
            }
            None => false,
        }
    }

    /// An element comes.
    fn take_element(
        &mut self,
        forest: &'a Forest,
        alloc: Global,
        id: NodeId,
        name: &QualName,
        attrs: AttributesRef<'_>,
    ) -> Result<bool, ParseFault>
        ensures ok { IfOk result (λ goes_on. IsElementTaken forest.now id name.now (attributes attrs.entry)
            (self.old.stand, self.old.rest, self.old.waiting.items) (self.new.stand, self.new.rest, self.new.waiting.items) goes_on) }
        ensures fault { IfErr result (λ fault. fault ≡ Memory) }
    {
        match self.stand.around(alloc, name, attrs)? {
            Some(around) => {
                self.descend(forest, id, Some(around.behind))?;
                self.stand = around.inside;
                Ok(true)
            }
            None => Ok(false),
        }
    }

    /// What stands in a node comes in its place.
    fn take_children(&mut self, forest: &'a Forest, id: NodeId) -> Result<bool, ParseFault>
        ensures ok { IfOk result (λ goes_on. AreChildrenTaken forest.now id
            (self.old.stand, self.old.rest, self.old.waiting.items) (self.new.stand, self.new.rest, self.new.waiting.items) goes_on) }
        ensures fault { IfErr result (λ fault. fault ≡ Memory) }
    {
        self.descend(forest, id, None)?;
        Ok(true)
    }

    /// The next node comes; answers whether all that came may stand where it does.
    fn take(&mut self, forest: &'a Forest, alloc: Global, id: NodeId) -> Result<bool, ParseFault>
        requires tree { IsTree forest.now }
        ensures ok { IfOk result (λ goes_on. IsTaken forest.now id
            (self.old.stand, self.old.rest, self.old.waiting.items) (self.new.stand, self.new.rest, self.new.waiting.items) goes_on) }
        ensures fault { IfErr result (λ fault. fault ≡ Memory) }
    {
        match forest.node(id) {
            Some(NodeData::Text(text)) => {
                let behind = self.stand.place_after_text(text);
                Ok(self.go_on(behind))
            }
            Some(NodeData::Comment(text)) => {
                let behind = self.stand.after_comment(text);
                Ok(self.go_on(behind))
            }
            Some(
                NodeData::Doctype {
                    name,
                    public_id,
                    system_id,
                },
            ) => {
                let behind = self.stand.after_doctype(name, public_id, system_id);
                Ok(self.go_on(behind))
            }
            Some(
                NodeData::Element {
                    name,
                    attrs,
                    template_contents: None,
                    ..
                },
            ) => self.take_element(forest, alloc, id, name, attrs),
            Some(
                NodeData::Element {
                    template_contents: Some(_),
                    ..
                },
            ) => Ok(false),
            Some(NodeData::ProcessingInstruction { .. }) => Ok(false),
            Some(NodeData::Document) => self.take_children(forest, id),
            Some(NodeData::Contents) => self.take_children(forest, id),
            None => self.take_children(forest, id),
        }
    }
}

/// Whether the nodes in a node, which is the document, make a plain document.
pub(crate) fn is_plain(forest: &Forest, alloc: Global, document: NodeId) -> Result<bool, ParseFault>
    requires tree { IsTree forest.now }
    requires document { document ≡ 0 }
    ensures ok { IfOk result (λ plain. plain ≡ is_plain_forest forest.now) }
    ensures fault { IfErr result (λ fault. fault ≡ Memory) }
{
    let mut judge = Judge {
        stand: Stand {
            place: PlainPlace::BeforeDoctype,
            after_text: false,
        },
        rest: forest.children(document),
        waiting: Vec::new(alloc),
    };
    loop {
        match judge.rest.next() {
            Some(id) => {
                if !judge.take(forest, alloc, id)? {
                    return Ok(false);
                }
            }
            None => match judge.waiting.pop() {
                Some(level) => {
                    if !judge.ascend(level) {
                        return Ok(false);
                    }
                }
                None => return Ok(judge.stand.place.may_end()),
            },
        }
    }
}
