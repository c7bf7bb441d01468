//! The names of elements and attributes.
ghost use Rattle.std.specs.Prelude.{◌≡◌, ◌++◌, ◌∷◌, [], IfOk, IfErr, OnOk, OnErr, IsTrue};
ghost use Rattle.std.specs.Str.{bytes_eq, chars};
ghost use Rattle.std.specs.String.{string_bytes};
ghost use Rattle.markup.specs.Plain.{is_plain};
ghost use Rattle.markup.specs.declared.fault.ParseFault.TheVariants.{Memory};

use crate::characters;
use crate::fault::ParseFault;
use crate::known_names::{self, KnownName};
use crate::name_form::NameForm;
use crate::namespaces::{self, KnownForm, KnownNamespace};
use crate::text::Text;
use crate::text_form::TextForm;
use std::alloc::Global;
use std::cmp::Ordering;
use std::fmt::{self, Debug};
use std::hash::{Hash, Hasher};
use std::marker::Model;

/// The name of an element or an attribute within its namespace, as `table`. A contract sees the list of its characters. A known name
/// takes no memory: it is held as its place in the table.
#[derive(Drop)]
pub struct LocalName {
    form: NameForm,
}

impl Model for LocalName {
    ghost use Rattle.std.specs.Prelude.{List, ℕ};

    ghost Value = { List ℕ };

    ghost use Rattle.markup.specs.NameForm.{form_characters, IsPlaced};

    ghost view = { λ n. form_characters n.form };

    ghost invariant = { λ n. IsPlaced n.form };
}

impl LocalName {
    ghost use Rattle.std.specs.Char.{to_ascii_lowercase};
    ghost use Rattle.std.specs.Prelude.{◌<◌, ◌==◌, false, length, map, slice_index_or, IfSome, IfNone};
    ghost use Rattle.std.specs.List.{list_any};
    ghost use Rattle.markup.specs.KnownNames.{names, IsNameAt};

    /// The name of a string.
    pub fn new(text: String) -> LocalName
        ensures { result ≡ chars (string_bytes text) }
    {
        LocalName {
            form: NameForm::of(TextForm::Long(text)),
        }
    }

    /// No characters. The name grows in the memory of `alloc`.
    pub fn empty(alloc: Global) -> LocalName
        ensures { result ≡ [] }
    {
        LocalName {
            form: NameForm::empty(alloc),
        }
    }

    /// A known name, which takes no memory. What it grows to lies in the memory of `alloc`.
    pub fn from_known(alloc: Global, known: KnownName) -> LocalName
        requires { known.place < length names }
        ensures { result ≡ slice_index_or names known.place [] }
    {
        LocalName {
            form: NameForm::Known(known, alloc),
        }
    }

    /// The name of a text.
    pub fn from_text(name: Text) -> LocalName
        ensures { result ≡ name }
    {
        LocalName {
            form: NameForm::of(name.into_form()),
        }
    }

    /// The name of characters that are lent.
    pub fn from_str(alloc: Global, text: &str) -> Result<LocalName, ParseFault>
        ensures ok { IfOk result (λ made. made ≡ chars text.now) }
        ensures fault { IfErr result (λ fault. fault ≡ Memory) }
    {
        Ok(LocalName {
            form: NameForm::from_str(alloc, text)?,
        })
    }

    /// The name of characters that are lent, with ASCII letters lowered.
    pub fn from_str_lowered(alloc: Global, text: &str) -> Result<LocalName, ParseFault>
        ensures ok { IfOk result (λ made. made ≡ map to_ascii_lowercase (chars text.now)) }
        ensures fault { IfErr result (λ fault. fault ≡ Memory) }
    {
        match known_names::lowered_name(text) {
            Some(known) => Ok(LocalName::from_known(alloc, known)),
            None => {
                let mut lowered = Text::empty(alloc);
                lowered.push_lowered(text)?;
                Ok(LocalName::from_text(lowered))
            }
        }
    }

    /// The name, lent.
    pub fn as_str(&self) -> &str
        ensures { chars result.now ≡ self.now }
    {
        self.form.as_str()
    }

    /// Whether there is no character.
    pub fn is_empty(&self) -> bool
        ensures { result ≡ (length self.now == 0) }
    {
        self.as_str().is_empty()
    }

    /// The known name that this is, if it is one of those in `known_names::NAMES`. It is looked up once, when the name is made.
    pub fn known(&self) -> Option<KnownName>
        ensures found { IfSome result (λ known. IsNameAt known.place self.now) }
        ensures missing { IfNone result (list_any (bytes_eq self.now) names ≡ false) }
    {
        self.form.known()
    }

    /// Whether this is the given name, which is of ASCII alone.
    pub fn is(&self, plain: &str) -> bool
        requires { IsTrue (is_plain plain.now) }
        ensures { result ≡ bytes_eq self.now plain.now }
    {
        characters::are_same(self.as_str(), plain)
    }

    /// Adds a character at the end.
    pub fn push(&mut self, character: char) -> Result<(), ParseFault>
        ensures ok { OnOk result (self.new ≡ self.old ++ character ∷ []) }
        ensures err { OnErr result (self.new ≡ self.old) }
        ensures fault { IfErr result (λ fault. fault ≡ Memory) }
    {
        self.form.push(character)?;
        Ok(())
    }

    /// Moves the name out with its memory, and leaves the empty one.
    pub fn take(&mut self) -> LocalName
        ensures taken { result ≡ self.old }
        ensures left { self.new ≡ [] }
    {
        LocalName {
            form: self.form.take(),
        }
    }

    /// A name of its own with the same characters.
    pub fn copy(&self, alloc: Global) -> Result<LocalName, ParseFault>
        ensures ok { IfOk result (λ copied. copied ≡ self.now) }
        ensures fault { IfErr result (λ fault. fault ≡ Memory) }
    {
        Ok(LocalName {
            form: self.form.copy(alloc)?,
        })
    }
}

impl Debug for LocalName {
    fn fmt<W: fmt::Write>(&self, f: &mut fmt::Formatter<W>) -> fmt::Result {
        Debug::fmt(self.as_str(), f)
    }
}

impl PartialEq for LocalName {
    ghost use Rattle.std.specs.Prelude.{nat_eq};
    ghost use Rattle.std.specs.Cmp.{partial_equiv_from_equiv};
    ghost use Rattle.std.specs.Cmp.Lexicographic.{pointwise, nat_list_eq_equiv};

    ghost eq = { pointwise nat_eq };

    ghost laws = { partial_equiv_from_equiv nat_list_eq_equiv };

    fn eq(&self, other: &LocalName) -> bool {
        match (self.known(), other.known()) {
            (Some(one), Some(two)) => one.place == two.place,
            (Some(_), None) => false,
            (None, Some(_)) => false,
            (None, None) => characters::are_same(self.as_str(), other.as_str()),
        }
    }
}

impl Eq for LocalName {
    ghost use Rattle.std.specs.Cmp.Lexicographic.{nat_list_eq_equiv};

    ghost laws = { nat_list_eq_equiv };
}

// Names are ordered by their characters.
impl PartialOrd for LocalName {
    ghost use Rattle.std.specs.Prelude.{Some};
    ghost use Rattle.std.specs.Ordering.{nat_cmp};
    ghost use Rattle.std.specs.Cmp.Lexicographic.{slice_cmp, texts_po};

    ghost partial_cmp = { λ a b. Some (slice_cmp nat_cmp a b) };

    ghost laws = { texts_po };

    fn partial_cmp(&self, other: &LocalName) -> Option<Ordering> {
        Some(self.cmp(other))
    }
}

impl Ord for LocalName {
    ghost use Rattle.std.specs.Prelude.{refl};
    ghost use Rattle.std.specs.Ordering.{nat_cmp};
    ghost use Rattle.std.specs.Cmp.Lexicographic.{slice_cmp, nat_list_cmp_total, texts_ties};

    ghost cmp = { slice_cmp nat_cmp };

    ghost total = { nat_list_cmp_total };

    ghost matches_partial_cmp = { λ a b. refl };

    ghost matches_eq = { λ a b. texts_ties a b };

    fn cmp(&self, other: &LocalName) -> Ordering {
        characters::compared(self.as_str(), other.as_str())
    }
}

impl Hash for LocalName {
    ghost use Rattle.std.specs.Prelude.{encode_utf8_all};
    ghost use Rattle.std.specs.Hash as fed;
    ghost use Rattle.std.specs.Cmp.Rules.{hashing};
    ghost use Rattle.std.proofs.Common.{rules};

    ghost hash_input = { λ text. fed.str (encode_utf8_all text) };

    ghost respects_eq = { Prim.search (hashing, rules) };

    fn hash<H: Hasher>(&self, state: &mut H) {
        characters::feed(self.as_str(), state);
    }
}

/// The name of a namespace, as `http://www.w3.org/1999/xhtml`; the empty text where there is none. A contract sees the list of its
/// characters.
#[derive(Drop)]
pub struct Namespace {
    form: KnownForm,
}

impl Model for Namespace {
    ghost use Rattle.std.specs.Prelude.{List, ℕ};

    ghost Value = { List ℕ };

    ghost use Rattle.markup.specs.Namespaces.{form_name, IsCanonical};

    ghost view = { λ n. form_name n.form };

    ghost invariant = { λ n. IsCanonical n.form };
}

impl Namespace {
    ghost use Rattle.markup.specs.Namespaces.{name_of, known_namespace};

    /// The namespace that a string names.
    pub fn new(text: String) -> Namespace
        ensures { result ≡ chars (string_bytes text) }
    {
        match namespaces::known(text.as_str()) {
            Some(known) => Namespace::from_known(known),
            None => Namespace {
                form: KnownForm::Other(text),
            },
        }
    }

    /// A known namespace, which takes no memory.
    pub fn from_known(known: KnownNamespace) -> Namespace
        ensures { result ≡ name_of known }
    {
        Namespace {
            form: KnownForm::Known(known),
        }
    }

    /// No namespace.
    #[tactic(auto, unfolding(crate::specs::Namespaces::name_of))]
    pub fn none() -> Namespace
        ensures { result ≡ [] }
    {
        Namespace::from_known(KnownNamespace::NoNamespace)
    }

    /// Which of the known namespaces this is, if it is one.
    pub fn known(&self) -> Option<KnownNamespace>
        ensures { result ≡ known_namespace self.now }
    {
        match &self.form {
            KnownForm::Known(known) => Some(*known),
            KnownForm::Other(_) => None,
        }
    }

    /// Whether this is the given known namespace.
    pub fn is_known(&self, known: KnownNamespace) -> bool
        ensures { result ≡ bytes_eq self.now (name_of known) }
    {
        match &self.form {
            KnownForm::Known(own) => *own == known,
            KnownForm::Other(_) => false,
        }
    }

    /// The name of the namespace, lent.
    pub fn as_str(&self) -> &str
        ensures { chars result.now ≡ self.now }
    {
        match &self.form {
            KnownForm::Known(known) => namespaces::name_of(*known),
            KnownForm::Other(text) => text.as_str(),
        }
    }

    /// Whether this is the given namespace, whose name is of ASCII alone.
    pub fn is(&self, plain: &str) -> bool
        requires { IsTrue (is_plain plain.now) }
        ensures { result ≡ bytes_eq self.now plain.now }
    {
        characters::are_same(self.as_str(), plain)
    }

    /// A namespace of its own with the same name.
    pub fn copy(&self, alloc: Global) -> Result<Namespace, ParseFault>
        ensures ok { IfOk result (λ copied. copied ≡ self.now) }
        ensures fault { IfErr result (λ fault. fault ≡ Memory) }
    {
        match &self.form {
            KnownForm::Known(known) => Ok(Namespace::from_known(*known)),
            KnownForm::Other(text) => Ok(Namespace::new(String::from_str(alloc, text.as_str())?)),
        }
    }
}

impl Debug for Namespace {
    fn fmt<W: fmt::Write>(&self, f: &mut fmt::Formatter<W>) -> fmt::Result {
        Debug::fmt(self.as_str(), f)
    }
}

impl PartialEq for Namespace {
    ghost use Rattle.std.specs.Prelude.{nat_eq};
    ghost use Rattle.std.specs.Cmp.{partial_equiv_from_equiv};
    ghost use Rattle.std.specs.Cmp.Lexicographic.{pointwise, nat_list_eq_equiv};

    ghost eq = { pointwise nat_eq };

    ghost laws = { partial_equiv_from_equiv nat_list_eq_equiv };

    fn eq(&self, other: &Namespace) -> bool {
        match other.known() {
            Some(known) => self.is_known(known),
            None => characters::are_same(self.as_str(), other.as_str()),
        }
    }
}

impl Eq for Namespace {
    ghost use Rattle.std.specs.Cmp.Lexicographic.{nat_list_eq_equiv};

    ghost laws = { nat_list_eq_equiv };
}

// Namespaces are ordered by their names.
impl PartialOrd for Namespace {
    ghost use Rattle.std.specs.Prelude.{Some};
    ghost use Rattle.std.specs.Ordering.{nat_cmp};
    ghost use Rattle.std.specs.Cmp.Lexicographic.{slice_cmp, texts_po};

    ghost partial_cmp = { λ a b. Some (slice_cmp nat_cmp a b) };

    ghost laws = { texts_po };

    fn partial_cmp(&self, other: &Namespace) -> Option<Ordering> {
        Some(self.cmp(other))
    }
}

impl Ord for Namespace {
    ghost use Rattle.std.specs.Prelude.{refl};
    ghost use Rattle.std.specs.Ordering.{nat_cmp};
    ghost use Rattle.std.specs.Cmp.Lexicographic.{slice_cmp, nat_list_cmp_total, texts_ties};

    ghost cmp = { slice_cmp nat_cmp };

    ghost total = { nat_list_cmp_total };

    ghost matches_partial_cmp = { λ a b. refl };

    ghost matches_eq = { λ a b. texts_ties a b };

    fn cmp(&self, other: &Namespace) -> Ordering {
        characters::compared(self.as_str(), other.as_str())
    }
}

impl Hash for Namespace {
    ghost use Rattle.std.specs.Prelude.{encode_utf8_all};
    ghost use Rattle.std.specs.Hash as fed;
    ghost use Rattle.std.specs.Cmp.Rules.{hashing};
    ghost use Rattle.std.proofs.Common.{rules};

    ghost hash_input = { λ text. fed.str (encode_utf8_all text) };

    ghost respects_eq = { Prim.search (hashing, rules) };

    fn hash<H: Hasher>(&self, state: &mut H) {
        characters::feed(self.as_str(), state);
    }
}

/// What stands before the colon of a name, as `xlink` in `xlink:href`. A contract sees the list of its characters.
#[derive(Drop)]
pub struct Prefix {
    form: KnownForm,
}

impl Model for Prefix {
    ghost use Rattle.std.specs.Prelude.{List, ℕ};

    ghost Value = { List ℕ };

    ghost use Rattle.markup.specs.Namespaces.{form_prefix};

    ghost view = { λ n. form_prefix n.form };
}

impl Prefix {
    ghost use Rattle.markup.specs.Namespaces.{prefix_of};

    /// The prefix of a string.
    pub fn new(text: String) -> Prefix
        ensures { result ≡ chars (string_bytes text) }
    {
        Prefix {
            form: KnownForm::Other(text),
        }
    }

    /// The usual prefix of a known namespace, as `xlink`, which takes no memory.
    pub fn from_known(known: KnownNamespace) -> Prefix
        ensures { result ≡ prefix_of known }
    {
        let form = KnownForm::Known(known);
        Prefix { form }
    }

    /// The prefix, lent.
    pub fn as_str(&self) -> &str
        ensures { chars result.now ≡ self.now }
    {
        match &self.form {
            KnownForm::Known(known) => namespaces::prefix_of(*known),
            KnownForm::Other(text) => text.as_str(),
        }
    }

    /// A prefix of its own with the same characters.
    pub fn copy(&self, alloc: Global) -> Result<Prefix, ParseFault>
        ensures ok { IfOk result (λ copied. copied ≡ self.now) }
        ensures fault { IfErr result (λ fault. fault ≡ Memory) }
    {
        match &self.form {
            KnownForm::Known(known) => Ok(Prefix::from_known(*known)),
            KnownForm::Other(text) => Ok(Prefix::new(String::from_str(alloc, text.as_str())?)),
        }
    }
}

impl Debug for Prefix {
    fn fmt<W: fmt::Write>(&self, f: &mut fmt::Formatter<W>) -> fmt::Result {
        Debug::fmt(self.as_str(), f)
    }
}

impl PartialEq for Prefix {
    ghost use Rattle.std.specs.Prelude.{nat_eq};
    ghost use Rattle.std.specs.Cmp.{partial_equiv_from_equiv};
    ghost use Rattle.std.specs.Cmp.Lexicographic.{pointwise, nat_list_eq_equiv};

    ghost eq = { pointwise nat_eq };

    ghost laws = { partial_equiv_from_equiv nat_list_eq_equiv };

    fn eq(&self, other: &Prefix) -> bool {
        characters::are_same(self.as_str(), other.as_str())
    }
}

impl Eq for Prefix {
    ghost use Rattle.std.specs.Cmp.Lexicographic.{nat_list_eq_equiv};

    ghost laws = { nat_list_eq_equiv };
}

// Prefixes are ordered by their characters.
impl PartialOrd for Prefix {
    ghost use Rattle.std.specs.Prelude.{Some};
    ghost use Rattle.std.specs.Ordering.{nat_cmp};
    ghost use Rattle.std.specs.Cmp.Lexicographic.{slice_cmp, texts_po};

    ghost partial_cmp = { λ a b. Some (slice_cmp nat_cmp a b) };

    ghost laws = { texts_po };

    fn partial_cmp(&self, other: &Prefix) -> Option<Ordering> {
        Some(self.cmp(other))
    }
}

impl Ord for Prefix {
    ghost use Rattle.std.specs.Prelude.{refl};
    ghost use Rattle.std.specs.Ordering.{nat_cmp};
    ghost use Rattle.std.specs.Cmp.Lexicographic.{slice_cmp, nat_list_cmp_total, texts_ties};

    ghost cmp = { slice_cmp nat_cmp };

    ghost total = { nat_list_cmp_total };

    ghost matches_partial_cmp = { λ a b. refl };

    ghost matches_eq = { λ a b. texts_ties a b };

    fn cmp(&self, other: &Prefix) -> Ordering {
        characters::compared(self.as_str(), other.as_str())
    }
}

impl Hash for Prefix {
    ghost use Rattle.std.specs.Prelude.{encode_utf8_all};
    ghost use Rattle.std.specs.Hash as fed;
    ghost use Rattle.std.specs.Cmp.Rules.{hashing};
    ghost use Rattle.std.proofs.Common.{rules};

    ghost hash_input = { λ text. fed.str (encode_utf8_all text) };

    ghost respects_eq = { Prim.search (hashing, rules) };

    fn hash<H: Hasher>(&self, state: &mut H) {
        characters::feed(self.as_str(), state);
    }
}

/// The whole name of an element or an attribute.
#[derive(Debug, Drop, PartialEq, Eq, PartialOrd, Ord, Hash)]
pub struct QualName {
    /// What stands before the colon, if there is one.
    pub prefix: Option<Prefix>,
    /// The namespace.
    pub ns: Namespace,
    /// The name within the namespace.
    pub local: LocalName,
}

impl QualName {
    /// The name with these parts.
    pub fn new(prefix: Option<Prefix>, ns: Namespace, local: LocalName) -> QualName
        ensures { result ≡ record { prefix = prefix; ns = ns; local = local } }
    {
        QualName { prefix, ns, local }
    }

    /// The name without its prefix, lent.
    pub fn expanded(&self) -> ExpandedName<'_>
        ensures ns { result.ns.now ≡ self.now.ns }
        ensures local { result.local.now ≡ self.now.local }
    {
        ExpandedName {
            ns: &self.ns,
            local: &self.local,
        }
    }

    /// A name of its own with the same parts.
    pub fn copy(&self, alloc: Global) -> Result<QualName, ParseFault>
        ensures ok { IfOk result (λ copied. copied ≡ self.now) }
        ensures fault { IfErr result (λ fault. fault ≡ Memory) }
    {
        let prefix = match &self.prefix {
            None => None,
            Some(prefix) => Some(prefix.copy(alloc)?),
        };
        Ok(QualName {
            prefix,
            ns: self.ns.copy(alloc)?,
            local: self.local.copy(alloc)?,
        })
    }
}

/// A name without its prefix, which is what says whether two elements are of one kind.
#[derive(Clone, Copy, Debug, PartialEq, Eq, PartialOrd, Ord, Hash)]
pub struct ExpandedName<'a> {
    /// The namespace.
    pub ns: &'a Namespace,
    /// The name within the namespace.
    pub local: &'a LocalName,
}
