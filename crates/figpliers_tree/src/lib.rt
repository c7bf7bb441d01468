//! A smaller door to Figpliers, for programs that parse pages, walk their trees and write them: what `figpliers` passes on of the parser, the
//! forest and the serializer, without selectors, other encodings, rendered text, Markdown and the judge of faithful documents.
#![tactic(auto)]

pub use devices::{
    DeviceFault, MemReader, MemWriter, Source, StdSource, StdTarget, Target, VecWriter, write_whole,
};
pub use html_extracts::{is_shown, link_of, links_below, shown_text, write_tree};
pub use html_forest::{AttributesRef, Children, Forest, ForestNode, NodeData, NodeId, TextRef};
pub use html_input::{TextFault, read_text};
pub use html_nodes::{
    Descendants, Query, attribute_of, attributes_of, element_name, fits, has_class, is_html,
    nodes_below, push_text, text_content,
};
pub use html_normal::{Exact, NormalFault, TableFileFault, read_document, read_table};
pub use html_pages::{
    Noted, NotedForest, Place, Rules, document, document_lossy, document_with, fragment,
    fragment_with, noted_document,
};
pub use html_parser::{
    ParseOpts, Parser, parse_document, parse_fragment, parse_fragment_for_element,
};
pub use html_serialize::{HtmlSerializer, SerializeOpts, serialize};
pub use html_standard_references::standard;
pub use html_tokenizer::{ReferenceRow, References, TableFault, TokenizerOpts};
pub use html_walks::{Step, Steps, height, walk};
pub use markup::{
    Attribute, Attributes, ElementFlags, KnownNamespace, LocalName, Namespace, NodeOrText,
    ParseFault, QualName, QuirksMode, Serialize, SerializeFault, Serializer, Text, TokenizerResult,
    TraversalScope, TreeSink,
};
