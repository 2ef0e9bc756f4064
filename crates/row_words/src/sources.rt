// Rows that are sources, with their units and names.

use std::alloc::Global;
use tl_base::NoMemory;

/// A source, with the units that it is given and what it shows.
#[derive(Drop)]
pub struct SourceRow {
    pub units: u64,
    pub name: String,
    pub source: String,
}

impl SourceRow {
    /// The row of a line `UNITS NAME`, without a source.
    pub fn new(alloc: Global, head: &str) -> Result<SourceRow, NoMemory> {
        let (units, name) = head.split_once(' ').unwrap_or((head, ""));
        Ok(SourceRow {
            units: units.parse::<u64>().unwrap_or(0),
            name: String::from_str(alloc, name)?,
            source: String::new(alloc),
        })
    }

    /// Puts a line of the row behind its source: the line with its end, or the piece of a line `%% COUNT PIECE` so many
    /// times.
    pub fn push_line(&mut self, line: &str) -> Result<(), NoMemory> {
        match line.strip_prefix("%% ") {
            Some(repeated) => self.push_repeated(repeated),
            None => {
                self.source.push_str(line)?;
                self.source.push('\n')?;
                Ok(())
            }
        }
    }

    fn push_repeated(&mut self, repeated: &str) -> Result<(), NoMemory> {
        let (count, piece) = repeated.split_once(' ').unwrap_or((repeated, ""));
        for _ in 0..count.parse::<u32>().unwrap_or(0) {
            self.source.push_str(piece)?;
        }
        Ok(())
    }
}
