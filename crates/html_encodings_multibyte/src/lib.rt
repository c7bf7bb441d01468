//! Decoders of all encodings of the Encoding Standard, with those of several bytes, whose indexes take some 200 kB. Who
//! doesn't need them takes those of `html_encodings`.
#![tactic(auto)]

mod big5;
mod big5_high;
mod big5_low;
mod decoding;
mod euc_jp;
mod euc_kr;
mod euc_kr_high;
mod euc_kr_low;
mod every;
mod gb18030;
mod gb18030_high;
mod gb18030_low;
mod indexes;
mod iso_2022_jp;
mod jis0208_index;
mod jis0212_index;
mod modes;
mod pairs;
mod ranges_index;
mod rows;
mod shift_jis;
mod shown;

pub use big5::Big5;
pub use decoding::{decode, decode_page};
pub use euc_jp::EucJp;
pub use euc_kr::EucKr;
pub use every::Every;
pub use gb18030::Gb18030;
pub use iso_2022_jp::{Iso2022Jp, Mode};
pub use rows::{error_rows, escape_rows, index_rows, range_rows};
pub use shift_jis::ShiftJis;
