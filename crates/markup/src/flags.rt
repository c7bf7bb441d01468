//! What is known of an element when it is created.

/// What is known of a new element beside its name and its attributes. By default no flag is set.
#[derive(Clone, Copy, Debug, Default, PartialEq, Eq)]
pub struct ElementFlags {
    /// The element is HTML's `template`, and its contents are a node of their own.
    pub template: bool,
    /// HTML may stand in the element, which is MathML's `annotation-xml`.
    pub mathml_annotation_xml_integration_point: bool,
    /// The tag of the element named an attribute twice.
    pub had_duplicate_attributes: bool,
}
