//! The names of elements and attributes that the HTML Standard, SVG and MathML know.
ghost use Rattle.std.specs.Prelude.{◌≡◌, [], false, map, slice_index_or, IfSome, IfNone};
ghost use Rattle.std.specs.Char.{to_ascii_lowercase};
ghost use Rattle.std.specs.List.{list_any};
ghost use Rattle.std.specs.Str.{bytes_eq, chars};
ghost use Rattle.markup.specs.KnownNames.{names, IsNameAt};
ghost use Rattle.markup.specs.KnownSlots.{name_hash, place_at};
ghost use Rattle.markup.specs.declared.known_slots.TheConstants.{LOWERED, SHIFTS, SLOTS};

use crate::known_slots::{LOWERED, SHIFTS, SLOTS};

/// The known names, in the order of their characters and without repeats: of elements and of attributes, those of SVG both
/// as they are and as a tag has them, in lower case.
#[rattlefmt::skip]
pub const NAMES: [&str; 626] = [
    "a", "abbr", "accent", "accentunder", "accept", "accept-charset", "accesskey", "acronym", "action", "actuate",
    "address", "align", "alink", "allow", "allowfullscreen", "alt", "altGlyph", "altGlyphDef", "altGlyphItem",
    "altglyph", "altglyphdef", "altglyphitem", "animate", "animateColor", "animateMotion", "animateTransform",
    "animatecolor", "animatemotion", "animatetransform", "annotation", "annotation-xml", "applet", "arcrole", "area",
    "article", "as", "aside", "async", "attributeName", "attributeType", "attributename", "attributetype", "audio",
    "autocapitalize", "autocomplete", "autocorrect", "autofocus", "autoplay", "b", "background", "base",
    "baseFrequency", "baseProfile", "basefont", "basefrequency", "baseprofile", "bdi", "bdo", "bgcolor", "bgsound",
    "big", "blink", "blocking", "blockquote", "body", "border", "br", "button", "calcMode", "calcmode", "canvas",
    "caption", "cellpadding", "cellspacing", "center", "charset", "checked", "circle", "cite", "class", "clear",
    "clip-path", "clip-rule", "clipPath", "clipPathUnits", "clippath", "clippathunits", "closedby", "code", "col",
    "colgroup", "color", "cols", "colspan", "columnalign", "columnspan", "command", "commandfor", "compact",
    "content", "contenteditable", "controls", "coords", "crossorigin", "cx", "cy", "d", "data", "datalist",
    "datetime", "dd", "decoding", "default", "defer", "definitionURL", "definitionurl", "defs", "del", "desc",
    "details", "dfn", "dialog", "diffuseConstant", "diffuseconstant", "dir", "dirname", "disabled", "discard",
    "display", "displaystyle", "div", "dl", "download", "draggable", "dt", "dx", "dy", "edgeMode", "edgemode",
    "ellipse", "em", "embed", "encoding", "enctype", "enterkeyhint", "face", "feBlend", "feColorMatrix",
    "feComponentTransfer", "feComposite", "feConvolveMatrix", "feDiffuseLighting", "feDisplacementMap",
    "feDistantLight", "feDropShadow", "feFlood", "feFuncA", "feFuncB", "feFuncG", "feFuncR", "feGaussianBlur",
    "feImage", "feMerge", "feMergeNode", "feMorphology", "feOffset", "fePointLight", "feSpecularLighting",
    "feSpotLight", "feTile", "feTurbulence", "feblend", "fecolormatrix", "fecomponenttransfer", "fecomposite",
    "feconvolvematrix", "fediffuselighting", "fedisplacementmap", "fedistantlight", "fedropshadow", "feflood",
    "fefunca", "fefuncb", "fefuncg", "fefuncr", "fegaussianblur", "feimage", "femerge", "femergenode", "femorphology",
    "fence", "feoffset", "fepointlight", "fespecularlighting", "fespotlight", "fetchpriority", "fetile",
    "feturbulence", "fieldset", "figcaption", "figure", "fill", "fill-opacity", "fill-rule", "filter", "filterUnits",
    "filterunits", "font", "footer", "for", "foreignObject", "foreignobject", "form", "formaction", "formenctype",
    "formmethod", "formnovalidate", "formtarget", "frame", "frameborder", "frameset", "fx", "fy", "g", "glyphRef",
    "glyphref", "gradientTransform", "gradientUnits", "gradienttransform", "gradientunits", "h1", "h2", "h3", "h4",
    "h5", "h6", "hatch", "hatchpath", "head", "header", "headers", "height", "hgroup", "hidden", "high", "hr", "href",
    "hreflang", "hspace", "html", "http-equiv", "i", "id", "iframe", "image", "imagesizes", "imagesrcset", "img",
    "inert", "input", "inputmode", "ins", "integrity", "is", "isindex", "ismap", "itemid", "itemprop", "itemref",
    "itemscope", "itemtype", "kbd", "kernelMatrix", "kernelUnitLength", "kernelmatrix", "kernelunitlength",
    "keyPoints", "keySplines", "keyTimes", "keygen", "keypoints", "keysplines", "keytimes", "kind", "label", "lang",
    "language", "largeop", "legend", "lengthAdjust", "lengthadjust", "li", "limitingConeAngle", "limitingconeangle",
    "line", "linearGradient", "lineargradient", "linethickness", "link", "list", "listing", "loading", "longdesc",
    "loop", "low", "lspace", "maction", "main", "malignmark", "map", "marginheight", "marginwidth", "mark", "marker",
    "markerHeight", "markerUnits", "markerWidth", "markerheight", "markerunits", "markerwidth", "marquee", "mask",
    "maskContentUnits", "maskUnits", "maskcontentunits", "maskunits", "math", "mathbackground", "mathcolor",
    "mathsize", "mathvariant", "max", "maxlength", "maxsize", "media", "menclose", "menu", "menuitem", "merror",
    "meta", "metadata", "meter", "method", "mfenced", "mfrac", "mglyph", "mi", "min", "minlength", "minsize",
    "mmultiscripts", "mn", "mo", "movablelimits", "mover", "mpadded", "mpath", "mphantom", "mprescripts", "mroot",
    "mrow", "ms", "mspace", "msqrt", "mstyle", "msub", "msubsup", "msup", "mtable", "mtd", "mtext", "mtr", "multicol",
    "multiple", "munder", "munderover", "muted", "name", "nav", "nextid", "nobr", "noembed", "noframes", "nohref",
    "nomodule", "nonce", "none", "noresize", "noscript", "noshade", "novalidate", "nowrap", "numOctaves",
    "numoctaves", "object", "offset", "ol", "opacity", "open", "optgroup", "optimum", "option", "output", "p",
    "param", "path", "pathLength", "pathlength", "pattern", "patternContentUnits", "patternTransform", "patternUnits",
    "patterncontentunits", "patterntransform", "patternunits", "picture", "ping", "placeholder", "plaintext",
    "playsinline", "points", "pointsAtX", "pointsAtY", "pointsAtZ", "pointsatx", "pointsaty", "pointsatz", "polygon",
    "polyline", "popover", "popovertarget", "popovertargetaction", "poster", "pre", "preload", "preserveAlpha",
    "preserveAspectRatio", "preservealpha", "preserveaspectratio", "primitiveUnits", "primitiveunits", "progress",
    "prompt", "q", "r", "radialGradient", "radialgradient", "rb", "readonly", "rect", "refX", "refY",
    "referrerpolicy", "refx", "refy", "rel", "repeatCount", "repeatDur", "repeatcount", "repeatdur", "required",
    "requiredExtensions", "requiredFeatures", "requiredextensions", "requiredfeatures", "reversed", "role",
    "rowalign", "rows", "rowspan", "rp", "rspace", "rt", "rtc", "ruby", "rules", "rx", "ry", "s", "samp", "sandbox",
    "scope", "script", "scriptlevel", "scrolling", "search", "section", "select", "selected", "selectedcontent",
    "semantics", "separator", "set", "shadowrootclonable", "shadowrootcustomelementregistry",
    "shadowrootdelegatesfocus", "shadowrootmode", "shadowrootserializable", "shape", "show", "size", "sizes", "slot",
    "small", "source", "space", "spacer", "span", "specularConstant", "specularExponent", "specularconstant",
    "specularexponent", "spellcheck", "spreadMethod", "spreadmethod", "src", "srcdoc", "srclang", "srcset", "start",
    "startOffset", "startoffset", "stdDeviation", "stddeviation", "step", "stitchTiles", "stitchtiles", "stop",
    "stretchy", "strike", "stroke", "stroke-dasharray", "stroke-dashoffset", "stroke-linecap", "stroke-linejoin",
    "stroke-miterlimit", "stroke-opacity", "stroke-width", "strong", "style", "sub", "summary", "sup", "surfaceScale",
    "surfacescale", "svg", "switch", "symbol", "symmetric", "systemLanguage", "systemlanguage", "tabindex", "table",
    "tableValues", "tablevalues", "target", "targetX", "targetY", "targetx", "targety", "tbody", "td", "template",
    "text", "textLength", "textPath", "textarea", "textlength", "textpath", "tfoot", "th", "thead", "time", "title",
    "tr", "track", "transform", "translate", "tspan", "tt", "type", "u", "ul", "use", "usemap", "valign", "value",
    "var", "video", "view", "viewBox", "viewTarget", "viewbox", "viewtarget", "vlink", "voffset", "vspace", "wbr",
    "width", "wrap", "writingsuggestions", "x", "x1", "x2", "xChannelSelector", "xchannelselector", "xlink",
    "xlink:actuate", "xlink:arcrole", "xlink:href", "xlink:role", "xlink:show", "xlink:title", "xlink:type",
    "xml:lang", "xml:space", "xmlns", "xmlns:xlink", "xmp", "y", "y1", "y2", "yChannelSelector", "ychannelselector",
    "zoomAndPan", "zoomandpan",
];

// The most bytes of a known name.
const LONGEST: usize = 31;

/// A known name, by its place in the table.
#[derive(Clone, Copy, Debug, PartialEq, Eq, Hash)]
pub struct KnownName {
    /// The place in the table.
    pub place: u16,
}

/// The places of known names with their letters lowered, lent.
fn lowered_places() -> &'static [u16; 626]
    ensures { result.now ≡ LOWERED }
{
    &LOWERED
}

/// The known names, lent.
fn table() -> &'static [&'static str]
    ensures { map (λ name. name.now) result.now ≡ names }
{
    &NAMES
}

/// The hash of a name, by its bytes.
fn hash_of(name: &str) -> u32
    ensures { result ≡ name_hash name.now }
{
    let mut hash: u32 = 0;
    for byte in name.as_bytes() {
        hash = hash.wrapping_mul(31).wrapping_add(*byte as u32);
    }
    hash
}

/// How far the slots are shifted, lent.
fn shifts() -> &'static [u16; 256]
    ensures { result.now ≡ SHIFTS }
{
    &SHIFTS
}

/// The places of known names, lent.
fn slots() -> &'static [u16; 1024]
    ensures { result.now ≡ SLOTS }
{
    &SLOTS
}

/// The place that a known name with this hash has. Another text's hash may lead to any place.
fn place_of(hash: u32) -> u16
    ensures { result ≡ place_at hash }
{
    let hash = hash as usize;
    let shift = shifts()[hash % 256] as usize;
    slots()[(hash / 256 + shift) % 1024]
}

/// The known name that a text is, if it is one.
pub(crate) fn known_name(name: &str) -> Option<KnownName>
    ensures found { IfSome result (λ known. IsNameAt known.place (chars name.now)) }
    ensures missing { IfNone result (list_any (bytes_eq (chars name.now)) names ≡ false) }
{
    if name.len() > LONGEST {
        return None;
    }
    let place = place_of(hash_of(name));
    match table().get(place as usize) {
        Some(known) if *known == name => Some(KnownName { place }),
        _ => None,
    }
}

/// The known name that a text is with its ASCII letters lowered, if the text itself is a known name.
pub(crate) fn lowered_name(name: &str) -> Option<KnownName>
    ensures { IfSome result (λ known. IsNameAt known.place (map to_ascii_lowercase (chars name.now))) }
{
    let known = known_name(name)?;
    let place = lowered_places()[known.place as usize];
    Some(KnownName { place })
}

impl KnownName {
    /// The text of the name; no text where the table ends before that place.
    pub fn as_str(self) -> &'static str
        ensures { chars result.now ≡ slice_index_or names self.place [] }
    {
        match table().get(self.place as usize) {
            Some(name) => name,
            None => "",
        }
    }
}
