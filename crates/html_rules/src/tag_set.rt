//! Sets of names by which the rules of tree construction go (HTML Standard, sections 13.2.4.2 and 13.2.6).

/// A set of names of elements. Which they are is said by `names_in` of the definitions.
#[derive(Clone, Copy, Debug, PartialEq, Eq)]
pub enum TagSet {
    // Scopes (section 13.2.4.2).
    /// What bounds "in scope", with elements of MathML and SVG.
    DefaultScope,
    /// The same in list item scope.
    ListItemScope,
    /// The same in button scope.
    ButtonScope,
    /// The same in table scope, and what "clear the stack back to a table context" stops at: `html`, `table`, `template`.
    TableScope,
    /// What "clear the stack back to a table body context" stops at: `tbody`, `tfoot`, `thead`, `template`, `html`.
    TableBodyContext,
    /// The same of a table row context: `tr`, `template`, `html`.
    TableRowContext,
    // Properties of elements.
    /// The special category (section 13.2.4.2), as far as it is HTML.
    SpecialTag,
    /// What "generate implied end tags" closes (section 13.2.6.3).
    CursoryImpliedEnd,
    /// The same, thoroughly.
    ThoroughImpliedEnd,
    /// Headings: `h1`, `h2`, `h3`, `h4`, `h5`, `h6`.
    HeadingTag,
    /// In which foster parenting applies (section 13.2.6.1): `table`, `tbody`, `tfoot`, `thead`, `tr`.
    FosterTarget,
    /// What may be open where the body ends.
    BodyEnd,
    /// What may belong to a form (section 13.2.6.1).
    FormAssociatable,
    /// The same, where an attribute `form` may name another: `button`, `fieldset`, `input`, `object`, `output`, `select`, `textarea`.
    Listed,
    // Foreign content (section 13.2.6).
    /// MathML's, in which text is HTML's.
    MathmlTextIntegrationPoint,
    /// SVG's, in which HTML may stand.
    SvgHtmlIntegrationPoint,
    /// MathML's `annotation-xml`.
    AnnotationXml,
    /// What stays MathML's in a text integration point: `mglyph`, `malignmark`.
    MglyphMalignmark,
    /// Start tags that end foreign content.
    ForeignBreakout,
    /// `br`, `p`.
    BrP,
    // Tags that rows name together.
    /// `head`, `body`, `html`, `br`.
    HeadBodyHtmlBr,
    /// `body`, `html`, `br`.
    BodyHtmlBr,
    /// Metadata without content: `base`, `basefont`, `bgsound`, `link`, `meta`.
    MetadataVoid,
    /// What may stand in a `noscript` of the head: `basefont`, `bgsound`, `link`, `meta`, `noframes`, `style`.
    NoscriptContent,
    /// What the rules of "in head" take in other modes.
    HeadContent,
    /// `noframes`, `style`.
    NoframesStyle,
    /// `head`, `noscript`.
    HeadNoscript,
    /// Blocks that close a `p`.
    Block,
    /// End tags of blocks.
    BlockEnd,
    /// `pre`, `listing`.
    PreListing,
    /// `dd`, `dt`.
    DdDt,
    /// `address`, `div`, `p`.
    AddressDivP,
    /// Formatting elements but `a` and `nobr`.
    FormattingTag,
    /// Formatting elements.
    FormattingEnd,
    /// `applet`, `marquee`, `object`.
    AppletMarqueeObject,
    /// `area`, `br`, `embed`, `img`, `keygen`, `wbr`.
    VoidTag,
    /// `param`, `source`, `track`.
    ParamSourceTrack,
    /// `option`, `optgroup`.
    OptionOptgroup,
    /// `rb`, `rtc`.
    RbRtc,
    /// `rp`, `rt`.
    RpRt,
    /// `rtc`, `ruby`.
    RtcRuby,
    /// Parts of tables and frames, which have no place in a body.
    TablePart,
    /// `tbody`, `tfoot`, `thead`.
    TbodyTfootThead,
    /// `td`, `th`.
    TdTh,
    /// `td`, `th`, `tr`.
    TdThTr,
    /// `table`, `tbody`, `tfoot`.
    TableTbodyTfoot,
    /// `style`, `script`, `template`.
    StyleScriptTemplate,
    /// End tags that "in table" ignores.
    InTableIgnoredEnd,
    /// End tags that "in caption" ignores.
    InCaptionIgnoredEnd,
    /// End tags that "in table body" ignores.
    InTableBodyIgnoredEnd,
    /// End tags that "in row" ignores: `body`, `caption`, `col`, `colgroup`, `html`, `td`, `th`.
    InRowIgnoredEnd,
    /// End tags that "in cell" ignores: `body`, `caption`, `col`, `colgroup`, `html`.
    InCellIgnoredEnd,
    /// Start tags that close a caption or a cell.
    CaptionCloser,
    /// Start tags that close a table body: `caption`, `col`, `colgroup`, `tbody`, `tfoot`, `thead`.
    TableBodyCloser,
    /// Start tags that close a row: `caption`, `col`, `colgroup`, `tbody`, `tfoot`, `thead`, `tr`.
    RowCloser,
    /// End tags that close a cell: `table`, `tbody`, `tfoot`, `thead`, `tr`.
    CellCloserEnd,
    /// Start tags after which a template goes on as a table: `caption`, `colgroup`, `tbody`, `tfoot`, `thead`.
    TableTemplate,
    /// Contexts of fragments that are RCDATA: `title`, `textarea`.
    RcdataContext,
    /// Contexts of fragments that are raw text: `style`, `xmp`, `iframe`, `noembed`, `noframes`.
    RawtextContext,
    // Single names.
    /// `a`.
    A,
    /// `body`.
    Body,
    /// `br`.
    Br,
    /// `button`.
    Button,
    /// `caption`.
    Caption,
    /// `col`.
    Col,
    /// `colgroup`.
    Colgroup,
    /// `font`.
    Font,
    /// `form`.
    Form,
    /// `frame`.
    Frame,
    /// `frameset`.
    Frameset,
    /// `head`.
    Head,
    /// `hr`.
    Hr,
    /// `html`.
    Html,
    /// `iframe`.
    Iframe,
    /// `image`.
    Image,
    /// `input`.
    Input,
    /// `li`.
    Li,
    /// `math`.
    Math,
    /// `nobr`.
    Nobr,
    /// `noembed`.
    Noembed,
    /// `noframes`.
    Noframes,
    /// `noscript`.
    Noscript,
    /// `optgroup`.
    Optgroup,
    /// `option`.
    Option,
    /// `p`.
    P,
    /// `plaintext`.
    Plaintext,
    /// `ruby`.
    Ruby,
    /// `script`.
    Script,
    /// `rtc`.
    Rtc,
    /// `select`.
    Select,
    /// `svg`.
    Svg,
    /// `table`.
    Table,
    /// `template`.
    Template,
    /// `textarea`.
    Textarea,
    /// `title`.
    Title,
    /// `tr`.
    Tr,
    /// `xmp`.
    Xmp,
    // What the HTML Standard has for some of these sets (section 13.2.4.2).
    /// For [`TagSet::DefaultScope`].
    StandardDefaultScope,
    /// For [`TagSet::ListItemScope`].
    StandardListItemScope,
    /// For [`TagSet::ButtonScope`].
    StandardButtonScope,
    /// For [`TagSet::SpecialTag`].
    StandardSpecialTag,
    /// For [`TagSet::BodyEnd`].
    StandardBodyEnd,
}
