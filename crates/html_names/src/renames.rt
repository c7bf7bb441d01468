//! Names that change in foreign content (HTML Standard, section 13.2.6.1, "adjust SVG attributes" and the like, and section 13.2.6.5). A
//! known name has a number, so a rename is a pair of numbers.
ghost use Rattle.std.specs.Prelude.{◌≡◌, ◌<◌, IfErr, IfOk, IfSome, [], find, length, map, nat_eq, slice_index_or};
ghost use Rattle.markup.specs.KnownNames.{IsNameAt, names};
ghost use Rattle.markup.specs.declared.fault.ParseFault.TheVariants.{Memory};
ghost use Rattle.markup.specs.declared.names.QualName.{QualName as Qualified};
ghost use Rattle.html_rules.specs.Names.{Namespace as Space};
ghost use Rattle.html_rules.specs.Renames.{adjust_attributes, adjust_tag_name, foreign_attribute_names, foreign_named, renamed};
ghost use Rattle.html_names.specs.Classes.{kind_of};
ghost use Rattle.html_names.specs.Renaming.{adjust_attribute, adjust_local, names_of, qualified_or, renamed_place, table_of};
ghost use Rattle.html_names.specs.declared.renames.TheConstants.{FOREIGN};

use crate::element_class::ElementNamespace;
use markup::{
    Attribute, Attributes, KnownName, KnownNamespace, LocalName, Namespace, ParseFault, Prefix,
    QualName,
};
use std::alloc::Global;

/// A known name as a tag has it, in lower case, and the one that it becomes; both by their places in the table of known names.
#[derive(Clone, Copy)]
pub(crate) struct Rename {
    pub(crate) written: u16,
    pub(crate) name: u16,
}

/// A name as it is written, and the parts of the name that it stands for; its prefix is the usual one of a namespace.
#[derive(Clone, Copy)]
pub(crate) struct ForeignName {
    pub(crate) written: u16,
    pub(crate) prefix: KnownNamespace,
    pub(crate) namespace: KnownNamespace,
    pub(crate) name: u16,
}

/// Which names change.
#[derive(Clone, Copy)]
pub(crate) enum RenameTable {
    SvgTags,
    SvgAttributes,
    MathMlAttributes,
}

/// Names of SVG elements with letters in upper case.
#[rattlefmt::skip]
const SVG_TAGS: [Rename; 37] = [
    Rename { written: 19, name: 16 }, Rename { written: 20, name: 17 }, Rename { written: 21, name: 18 },
    Rename { written: 26, name: 23 }, Rename { written: 27, name: 24 }, Rename { written: 28, name: 25 },
    Rename { written: 85, name: 83 }, Rename { written: 171, name: 146 }, Rename { written: 172, name: 147 },
    Rename { written: 173, name: 148 }, Rename { written: 174, name: 149 }, Rename { written: 175, name: 150 },
    Rename { written: 176, name: 151 }, Rename { written: 177, name: 152 }, Rename { written: 178, name: 153 },
    Rename { written: 179, name: 154 }, Rename { written: 180, name: 155 }, Rename { written: 181, name: 156 },
    Rename { written: 182, name: 157 }, Rename { written: 183, name: 158 }, Rename { written: 184, name: 159 },
    Rename { written: 185, name: 160 }, Rename { written: 186, name: 161 }, Rename { written: 187, name: 162 },
    Rename { written: 188, name: 163 }, Rename { written: 189, name: 164 }, Rename { written: 191, name: 165 },
    Rename { written: 192, name: 166 }, Rename { written: 193, name: 167 }, Rename { written: 194, name: 168 },
    Rename { written: 196, name: 169 }, Rename { written: 197, name: 170 }, Rename { written: 211, name: 210 },
    Rename { written: 225, name: 224 }, Rename { written: 296, name: 295 }, Rename { written: 446, name: 445 },
    Rename { written: 568, name: 565 },
];

/// Names of SVG attributes with letters in upper case.
#[rattlefmt::skip]
const SVG_ATTRIBUTES: [Rename; 58] = [
    Rename { written: 40, name: 38 }, Rename { written: 41, name: 39 }, Rename { written: 54, name: 51 },
    Rename { written: 55, name: 52 }, Rename { written: 69, name: 68 }, Rename { written: 86, name: 84 },
    Rename { written: 123, name: 122 }, Rename { written: 138, name: 137 }, Rename { written: 206, name: 205 },
    Rename { written: 225, name: 224 }, Rename { written: 228, name: 226 }, Rename { written: 229, name: 227 },
    Rename { written: 274, name: 272 }, Rename { written: 275, name: 273 }, Rename { written: 280, name: 276 },
    Rename { written: 281, name: 277 }, Rename { written: 282, name: 278 }, Rename { written: 290, name: 289 },
    Rename { written: 293, name: 292 }, Rename { written: 317, name: 314 }, Rename { written: 318, name: 315 },
    Rename { written: 319, name: 316 }, Rename { written: 324, name: 322 }, Rename { written: 325, name: 323 },
    Rename { written: 393, name: 392 }, Rename { written: 407, name: 406 }, Rename { written: 412, name: 409 },
    Rename { written: 413, name: 410 }, Rename { written: 414, name: 411 }, Rename { written: 424, name: 421 },
    Rename { written: 425, name: 422 }, Rename { written: 426, name: 423 }, Rename { written: 437, name: 435 },
    Rename { written: 438, name: 436 }, Rename { written: 440, name: 439 }, Rename { written: 453, name: 450 },
    Rename { written: 454, name: 451 }, Rename { written: 458, name: 456 }, Rename { written: 459, name: 457 },
    Rename { written: 463, name: 461 }, Rename { written: 464, name: 462 }, Rename { written: 510, name: 508 },
    Rename { written: 511, name: 509 }, Rename { written: 514, name: 513 }, Rename { written: 521, name: 520 },
    Rename { written: 523, name: 522 }, Rename { written: 526, name: 525 }, Rename { written: 544, name: 543 },
    Rename { written: 550, name: 549 }, Rename { written: 554, name: 553 }, Rename { written: 558, name: 556 },
    Rename { written: 559, name: 557 }, Rename { written: 567, name: 564 }, Rename { written: 592, name: 590 },
    Rename { written: 593, name: 591 }, Rename { written: 605, name: 604 }, Rename { written: 623, name: 622 },
    Rename { written: 625, name: 624 },
];

/// Such a name of MathML.
#[rattlefmt::skip]
const MATHML_ATTRIBUTES: [Rename; 1] = [
    Rename { written: 115, name: 114 },
];

/// Attributes with a namespace of their own.
#[rattlefmt::skip]
const FOREIGN: [ForeignName; 11] = [
    ForeignName { written: 607, prefix: KnownNamespace::XLink, namespace: KnownNamespace::XLink, name: 9 },
    ForeignName { written: 608, prefix: KnownNamespace::XLink, namespace: KnownNamespace::XLink, name: 32 },
    ForeignName { written: 609, prefix: KnownNamespace::XLink, namespace: KnownNamespace::XLink, name: 246 },
    ForeignName { written: 610, prefix: KnownNamespace::XLink, namespace: KnownNamespace::XLink, name: 466 },
    ForeignName { written: 611, prefix: KnownNamespace::XLink, namespace: KnownNamespace::XLink, name: 499 },
    ForeignName { written: 612, prefix: KnownNamespace::XLink, namespace: KnownNamespace::XLink, name: 573 },
    ForeignName { written: 613, prefix: KnownNamespace::XLink, namespace: KnownNamespace::XLink, name: 580 },
    ForeignName { written: 614, prefix: KnownNamespace::Xml, namespace: KnownNamespace::Xml, name: 285 },
    ForeignName { written: 615, prefix: KnownNamespace::Xml, namespace: KnownNamespace::Xml, name: 505 },
    ForeignName { written: 616, prefix: KnownNamespace::NoNamespace, namespace: KnownNamespace::Xmlns, name: 616 },
    ForeignName { written: 617, prefix: KnownNamespace::Xmlns, namespace: KnownNamespace::Xmlns, name: 606 },
];

/// The pairs, lent.
fn table(renames: RenameTable) -> &'static [Rename]
    ensures { result.now ≡ table_of renames }
{
    match renames {
        RenameTable::SvgTags => &SVG_TAGS,
        RenameTable::SvgAttributes => &SVG_ATTRIBUTES,
        RenameTable::MathMlAttributes => &MATHML_ATTRIBUTES,
    }
}

/// The pair of a known name, if it has one.
fn rename_at(table: &[Rename], place: u16) -> Option<Rename>
    ensures { result ≡ find (λ rename. nat_eq rename.written place) table.now }
{
    for rename in table {
        if rename.written == place {
            return Some(*rename);
        }
    }
    None
}

/// The place of the name that a known one becomes.
fn renamed_place(table: &[Rename], place: u16) -> u16
    ensures { result ≡ renamed_place table.now place }
{
    match rename_at(table, place) {
        Some(rename) => rename.name,
        None => place,
    }
}

/// A known name as a name of its own.
fn known_name(alloc: Global, place: u16) -> LocalName
    requires { place < length names }
    ensures { result ≡ slice_index_or names place [] }
{
    LocalName::from_known(alloc, KnownName { place })
}

/// The name that a name becomes. It is looked up once.
fn renamed_name(
    alloc: Global,
    renames: RenameTable,
    name: LocalName,
) -> Result<LocalName, ParseFault>
    ensures ok { IfOk result (λ adjusted. adjusted ≡ renamed (names_of renames) name) }
    ensures fault { IfErr result (λ fault. fault ≡ Memory) }
{
    match name.known() {
        None => Ok(name),
        Some(known) => renamed_known(alloc, renames, known, name),
    }
}

/// The same for a known name.
fn renamed_known(
    alloc: Global,
    renames: RenameTable,
    known: KnownName,
    name: LocalName,
) -> Result<LocalName, ParseFault>
    requires { IsNameAt known.place name }
    ensures ok { IfOk result (λ adjusted. adjusted ≡ renamed (names_of renames) name) }
    ensures fault { IfErr result (λ fault. fault ≡ Memory) }
{
    let place = renamed_place(table(renames), known.place);
    if place == known.place {
        Ok(name)
    } else {
        Ok(known_name(alloc, place))
    }
}

/// The name of an element in foreign content ("adjust SVG tag names", HTML Standard, section 13.2.6.5). Only names of SVG change, and none
/// of those that they become takes memory.
pub fn adjust_tag_name(
    alloc: Global,
    namespace: ElementNamespace,
    name: LocalName,
) -> Result<LocalName, ParseFault>
    ensures ok { (space : Space) → kind_of space ≡ namespace → IfOk result (λ adjusted. adjusted ≡ adjust_tag_name space name) }
    ensures fault { IfErr result (λ fault. fault ≡ Memory) }
{
    match namespace {
        ElementNamespace::Svg => renamed_name(alloc, RenameTable::SvgTags, name),
        _ => Ok(name),
    }
}

/// The rows of attributes with a namespace of their own, lent.
fn foreign() -> &'static [ForeignName]
    ensures { result.now ≡ FOREIGN }
{
    &FOREIGN
}

/// The row of a known name, if it has one.
fn row_at(rows: &[ForeignName], place: u16) -> Option<ForeignName>
    ensures { result ≡ find (λ row. nat_eq row.written place) rows.now }
{
    for row in rows {
        if row.written == place {
            return Some(*row);
        }
    }
    None
}

/// The row of an attribute with a namespace of its own, if the name is that of one.
fn foreign_row(name: &LocalName) -> Option<ForeignName>
    ensures within { IfSome result (λ row. row.name < length names) }
    ensures found { (whole : Qualified) → whole.local ≡ name.now → foreign_named foreign_attribute_names whole ≡ qualified_or whole result }
{
    match name.known() {
        None => None,
        Some(known) => row_at(foreign(), known.place),
    }
}

/// The name of an attribute with its namespace ("adjust foreign attributes").
fn adjust_foreign_name(alloc: Global, name: QualName) -> Result<QualName, ParseFault>
    ensures ok { IfOk result (λ adjusted. adjusted ≡ foreign_named foreign_attribute_names name) }
    ensures fault { IfErr result (λ fault. fault ≡ Memory) }
{
    match foreign_row(&name.local) {
        None => Ok(name),
        Some(row) => Ok(QualName::new(
            Some(Prefix::from_known(row.prefix)),
            Namespace::from_known(row.namespace),
            known_name(alloc, row.name),
        )),
    }
}

/// The local name of an attribute in foreign content.
fn adjust_local(
    alloc: Global,
    namespace: ElementNamespace,
    name: LocalName,
) -> Result<LocalName, ParseFault>
    ensures ok { IfOk result (λ adjusted. adjusted ≡ adjust_local namespace name) }
    ensures fault { IfErr result (λ fault. fault ≡ Memory) }
{
    match namespace {
        ElementNamespace::MathMl => renamed_name(alloc, RenameTable::MathMlAttributes, name),
        ElementNamespace::Svg => renamed_name(alloc, RenameTable::SvgAttributes, name),
        _ => Ok(name),
    }
}

/// An attribute in foreign content.
fn adjust_attribute(
    alloc: Global,
    namespace: ElementNamespace,
    attribute: Attribute,
) -> Result<Attribute, ParseFault>
    ensures ok { IfOk result (λ adjusted. adjusted ≡ adjust_attribute namespace attribute) }
    ensures fault { IfErr result (λ fault. fault ≡ Memory) }
{
    let Attribute { name, value } = attribute;
    let QualName { prefix, ns, local } = name;
    let local = adjust_local(alloc, namespace, local)?;
    let name = adjust_foreign_name(alloc, QualName::new(prefix, ns, local))?;
    Ok(Attribute { name, value })
}

/// Attributes in foreign content, one by one.
fn adjust_each(
    alloc: Global,
    namespace: ElementNamespace,
    attributes: Attributes,
) -> Result<Attributes, ParseFault>
    ensures ok { IfOk result (λ adjusted. adjusted ≡ map (adjust_attribute namespace) attributes) }
    ensures fault { IfErr result (λ fault. fault ≡ Memory) }
{
    let mut adjusted = Vec::with_capacity(alloc, attributes.len())?;
    for attribute in attributes.into_vec() {
        adjusted.push(adjust_attribute(alloc, namespace, attribute)?)?;
    }
    Ok(Attributes::from_vec(adjusted))
}

/// The attributes of an element in foreign content: those of SVG and of MathML get their letters in upper case, and some a namespace of
/// their own ("adjust MathML attributes", "adjust SVG attributes", "adjust foreign attributes"). Values are moved, not copied; each name is
/// looked up twice.
pub fn adjust_attributes(
    alloc: Global,
    namespace: ElementNamespace,
    attributes: Attributes,
) -> Result<Attributes, ParseFault>
    ensures ok { (space : Space) → kind_of space ≡ namespace → IfOk result (λ adjusted. adjusted ≡ adjust_attributes space attributes) }
    ensures fault { IfErr result (λ fault. fault ≡ Memory) }
{
    adjust_each(alloc, namespace, attributes)
}
