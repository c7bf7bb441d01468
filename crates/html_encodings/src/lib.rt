//! From the bytes of a page to its text: which encoding it is in (HTML Standard, section 13.2.3), and its characters
//! (Encoding Standard).
#![tactic(auto)]

mod ascii;
mod attributes;
mod basic;
mod declarations;
mod decoded;
mod decoder;
mod decoding;
mod emitted;
mod handler;
mod labels;
mod names;
mod rows;
mod scanning;
mod single_byte;
mod sniffing;
mod tables;
mod utf_16;
mod utf_8;

pub use basic::Basic;
pub use declarations::prescan;
pub use decoded::Decoded;
pub use decoder::Decoder;
pub use decoding::{decode, decode_pieces};
pub use emitted::{Emitted, code_point, entry_item};
pub use handler::Handler;
pub use labels::encoding_of_label;
pub use names::{Encoding, LABELS};
pub use rows::{label_rows, page_rows, single_byte_rows, utf_8_rows, utf_16_rows};
pub use single_byte::entry_at;
pub use sniffing::{Mark, Sniffed, Why, byte_order_mark, sniff};
pub use utf_8::Utf8;
pub use utf_16::Utf16;
