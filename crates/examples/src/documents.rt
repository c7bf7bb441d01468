//! From the bytes of a page to its normal text.

use figpliers::{Exact, MemReader, MemWriter, NormalFault, Report, normalise, standard};
use std::alloc::Global;

pub fn normal(alloc: Global, page: Vec<u8>, writer: &mut MemWriter) -> Result<Report, NormalFault> {
    let mut reader = MemReader::new(page, 4096, None);
    let Ok(table) = standard(alloc) else {
        return Err(NormalFault::Memory);
    };
    normalise(alloc, &mut reader, writer, table, Exact::default())
}
