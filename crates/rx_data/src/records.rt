ghost use Rattle.std.specs.Prelude.{◌≡◌, IfOk, IfErr, OnOk};
ghost use Rattle.csv.specs.Records.{fields_of};
ghost use Rattle.rx_data.specs.Records.{records_of, records_left, IsPlain, Takes};

use crate::faults::DataFault;
use csv::{ByteRecord, Reader, ReaderBuilder};
use std::alloc::Global;

/// A reader of the records of a text, with no header row and of any lengths.
pub(crate) fn reader_of<'a>(alloc: Global, text: &'a [u8]) -> Reader<&'a [u8]>
    ensures plain { IsPlain result }
    ensures left { records_left result ≡ records_of text.now }
{
    ReaderBuilder::new()
        .has_headers(false)
        .flexible(true)
        .from_reader(alloc, text)
}

/// Takes the next record, and tells whether there was one. The error is want of memory.
pub(crate) fn take_record(
    reader: &mut Reader<&[u8]>,
    fields: &mut ByteRecord,
) -> Result<bool, DataFault>
    requires { IsPlain reader.old }
    ensures plain { OnOk result (IsPlain reader.new) }
    ensures takes { IfOk result (λ found. Takes found (fields_of fields.new) (records_left reader.old) (records_left reader.new)) }
    ensures memory { IfErr result (λ fault. fault ≡ DataFault.NoMemory) }
{
    let Ok(found) = reader.read_byte_record(fields) else {
        return Err(DataFault::NoMemory);
    };
    Ok(found)
}
