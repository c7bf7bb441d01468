//! Where the last open element of each name is.
ghost use Rattle.std.specs.Prelude.{◌≡◌, List, ℕ, Bool, IfErr, IfOk, IsTrue, false};
ghost use Rattle.markup.specs.declared.fault.ParseFault.TheVariants.{Memory};
ghost use Rattle.html_stack.specs.Noted.{Says, SaysIn, SaysSame, key_of, said, top_in};

use html_names::ElementName;
use markup::{ParseFault, Text};
use std::alloc::Global;
use std::collections::BTreeMap;

/// By name, one more than the place of the last element of it: of HTML elements by their names, of others by theirs in lower case.
#[derive(Drop)]
pub(crate) struct Tops {
    pub(crate) html: BTreeMap<Text, usize>,
    pub(crate) foreign: BTreeMap<Text, usize>,
}

/// The name that an element is found by.
pub(crate) fn key(alloc: Global, name: &ElementName) -> Result<Text, ParseFault>
    ensures ok { IfOk result (λ key. key ≡ key_of name.now) }
    ensures fault { IfErr result (λ fault. fault ≡ Memory) }
{
    let mut key = Text::empty(alloc);
    if name.is_html() {
        key.push_str(name.as_str())?;
    } else {
        key.push_lowered(name.as_str())?;
    }
    Ok(key)
}

/// What is said of a name; 0, where nothing is.
fn top(tops: &BTreeMap<Text, usize>, name: &Text) -> usize
    ensures { result ≡ top_in tops.now name.now }
{
    match tops.get(name) {
        Some(top) => *top,
        None => 0,
    }
}

/// Says so much of a name; whether memory was there for it.
fn set_top(tops: &mut BTreeMap<Text, usize>, name: Text, top: usize) -> bool
    ensures set { IsTrue result → SaysIn name top tops.old tops.new }
    ensures unset { result ≡ false → (other : List ℕ) → top_in tops.new other ≡ top_in tops.old other }
{
    if top == 0 {
        tops.remove(&name);
        return true;
    }
    tops.insert(name, top).is_ok()
}

impl Tops {
    /// Nothing is said of any name.
    pub(crate) fn new(alloc: Global) -> Tops {
        Tops {
            html: BTreeMap::new(alloc),
            foreign: BTreeMap::new(alloc),
        }
    }

    /// What is said of a name.
    pub(crate) fn get(&self, is_html: bool, name: &Text) -> usize
        ensures { result ≡ said self.now is_html name.now }
    {
        if is_html {
            top(&self.html, name)
        } else {
            top(&self.foreign, name)
        }
    }

    /// Says so much of a name. Where memory is short nothing changes.
    pub(crate) fn set(&mut self, is_html: bool, name: Text, top: usize) -> bool
        ensures set { IsTrue result → Says is_html name top self.old self.new }
        ensures unset { result ≡ false → SaysSame self.old self.new }
    {
        if is_html {
            set_top(&mut self.html, name, top)
        } else {
            set_top(&mut self.foreign, name, top)
        }
    }
}
