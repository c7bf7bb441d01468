//! The names, texts and attributes of marked-up documents, which every other crate speaks of, and the interface of who builds their tree.
//!
//! Tests: `base_tests`, `names`; its worked rows are computed by the check.
#![tactic(auto)]

mod attribute_index;
pub mod attributes;
mod characters;
pub mod count;
pub mod fault;
pub mod flags;
pub mod html_names;
pub mod known_names;
mod known_slots;
pub mod laws;
mod name_form;
pub mod names;
pub mod namespaces;
pub mod node_or_text;
pub mod quirks;
pub mod serializer;
mod short_text;
pub mod text;
mod text_form;
pub mod tokenizer_result;
pub mod tree_laws;
pub mod tree_sink;
pub mod written_rows;

pub use attributes::{Attribute, Attributes};
pub use devices;
pub use fault::ParseFault;
pub use flags::ElementFlags;
pub use html_names::is_html_name;
pub use known_names::KnownName;
pub use names::{ExpandedName, LocalName, Namespace, Prefix, QualName};
pub use namespaces::KnownNamespace;
pub use node_or_text::NodeOrText;
pub use quirks::QuirksMode;
pub use serializer::{Serialize, SerializeFault, Serializer, TraversalScope};
pub use text::Text;
pub use tokenizer_result::TokenizerResult;
pub use tree_sink::TreeSink;
