//! What is told of statistics.

ghost use Rattle.rx_value.specs.Shape.{IsSchema};
ghost use Rattle.rx_index.specs.Entries.{IsEntered};

use case_lines::Fault;
use rx_index::Indexed;
use rx_stats::{Statistics, computed};
use rx_stats_file::{StatsFault, read_stats};
use rx_value::{Bytes, Index, NumberList};
use std::alloc::{AllocError, Global};

fn add_numbers(
    alloc: Global,
    index: &Index,
    numbers: &NumberList,
    into: &mut Bytes,
) -> Result<(), AllocError> {
    into.push(b' ')?;
    into.append(index.name.as_slice())?;
    into.push(b':')?;
    for number in numbers.as_slice() {
        let number = *number;
        into.append(format!(in alloc; " {number}")?.as_bytes())?;
    }
    into.push(b';')
}

// Adds behind each index's name its numbers.
fn add_statistics(
    alloc: Global,
    table: &Indexed,
    statistics: &Statistics,
    into: &mut Bytes,
) -> Result<(), AllocError> {
    into.append(b"statistics:")?;
    for (index, numbers) in table
        .schema
        .indexes
        .as_slice()
        .iter()
        .zip(statistics.as_slice())
    {
        add_numbers(alloc, index, numbers, into)?;
    }
    Ok(())
}

/// Adds the statistics that the rows of a table have.
pub fn add_computed(alloc: Global, table: &Indexed, into: &mut Bytes) -> Result<(), Fault>
    requires limits { IsSchema table.now.schema }
    requires entered { IsEntered table.now }
{
    let statistics = computed(alloc, table)?;
    add_statistics(alloc, table, &statistics, into)?;
    Ok(())
}

/// Adds the statistics of a table after a text, or the field of it that is at fault.
pub fn add_read(alloc: Global, table: &Indexed, text: &[u8], into: &mut Bytes) -> Result<(), Fault>
    requires limits { IsSchema table.now.schema }
    requires entered { IsEntered table.now }
{
    let base = computed(alloc, table)?;
    match read_stats(alloc, text, &table.schema, base) {
        Ok(statistics) => {
            add_statistics(alloc, table, &statistics, into)?;
            Ok(())
        }
        Err(StatsFault::BadStats { field }) => {
            into.append(b"bad statistics: '")?;
            into.append(field.as_slice())?;
            into.push(b'\'')?;
            Ok(())
        }
        Err(StatsFault::NoMemory) => Err(Fault::NoMemory),
    }
}

/// The bytes whose numbers stand between commas, or none for `-`.
pub fn raw_bytes(alloc: Global, text: &str) -> Result<Bytes, Fault> {
    let mut bytes = Bytes::new(alloc);
    if text == "-" {
        return Ok(bytes);
    }
    for word in text.split(',') {
        match word.parse::<u8>() {
            Ok(byte) => bytes.push(byte)?,
            Err(_) => return Err(Fault::Unreadable),
        }
    }
    Ok(bytes)
}
