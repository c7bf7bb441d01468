//! In which sets an open element is, by the rules that hold.
ghost use Rattle.std.specs.Prelude.{◌≡◌, ◌==◌, List, ℕ, cond};
ghost use Rattle.html_rules.specs.Names.{Namespace as Space};
ghost use Rattle.html_rules.specs.Sets.{set_by};
ghost use Rattle.html_rules.specs.declared.rules.Rules.TheVariants as rules;
ghost use Rattle.html_names.specs.Classes.{IsRowBy, IsRowOf};
ghost use Rattle.html_names.specs.SetBits.{has_set, number_of};

use html_rules::{Rules, TagSet};

/// Whether bits have that of a set.
fn has(sets: u128, set: TagSet) -> bool
    ensures { result ≡ has_set sets set }
{
    sets >> (set as u32) & 1 == 1
}

/// Bits in which that of a set is this one.
fn with_set(sets: u128, set: TagSet, is_in: bool) -> u128
    ensures { (s : TagSet) → has_set result s ≡ cond (number_of s == number_of set) is_in (has_set sets s) }
{
    let bit = 1 << (set as u32);
    if is_in { sets | bit } else { sets & !bit }
}

/// The sets that the Standard asks for, each at the place of the one that it stands for.
fn by_standard(sets: u128) -> u128
    ensures { (s : TagSet) → has_set result s ≡ has_set sets (set_by rules.Standard s) }
{
    let a = with_set(
        sets,
        TagSet::DefaultScope,
        has(sets, TagSet::StandardDefaultScope),
    );
    let b = with_set(
        a,
        TagSet::ListItemScope,
        has(sets, TagSet::StandardListItemScope),
    );
    let c = with_set(
        b,
        TagSet::ButtonScope,
        has(sets, TagSet::StandardButtonScope),
    );
    let d = with_set(c, TagSet::SpecialTag, has(sets, TagSet::StandardSpecialTag));
    let e = with_set(d, TagSet::BodyEnd, has(sets, TagSet::StandardBodyEnd));
    with_set(
        e,
        TagSet::TableTbodyTfoot,
        has(sets, TagSet::TbodyTfootThead),
    )
}

/// The bits of an open element, from those of its name.
pub(crate) fn sets_by(rules: Rules, sets: u128) -> u128
    ensures { (space : Space) (name : List ℕ) → IsRowOf space name sets → IsRowBy rules space name result }
{
    match rules {
        Rules::Html5ever => sets,
        Rules::Standard => by_standard(sets),
    }
}
