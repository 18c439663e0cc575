//! The records of the text of which a book is made, on `csv`.

use csv::{ByteRecord, ReaderBuilder};
use std::alloc::{AllocError, Global};

/// The records of a book, whose bytes are the text.
pub fn records_in(alloc: Global, text: &[u8]) -> Result<Vec<ByteRecord>, AllocError> {
    let reader = ReaderBuilder::new()
        .has_headers(false)
        .flexible(true)
        .from_reader(alloc, text);
    let mut records = Vec::new(alloc);
    for record in reader.into_byte_records() {
        // Bytes that are in memory are read without a fault of a device, and a record may have any number
        // of fields of any bytes: so nothing but want of memory is left.
        let Ok(fields) = record else {
            return Err(AllocError);
        };
        records.push(fields)?;
    }
    Ok(records)
}
