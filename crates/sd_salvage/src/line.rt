// The lines of a salvage that are not those of a reading.
use sd_base::VolName;
use std::fmt;

/// A line of a salvage. Displays it without the newline.
#[derive(Drop)]
pub enum SalvageLine {
    /// From that place of the volume on some may be lost.
    Gap { volume: VolName, at: u64 },
    /// Since the last record, records of these FileIndexes may be lost; if there is no last one, also all after the first.
    Missing { first: u32, last: Option<u32> },
    /// Some may be lost: so many records and data bytes were salvaged, past so many places.
    Salvaged { records: u64, bytes: u64, gaps: u64 },
}

impl fmt::Display for SalvageLine {
    ghost use Rattle.std.specs.Prelude.{Some};
    ghost use Rattle.sd_salvage.specs.Lines.{line_text};

    ghost output = { λ l. Some (line_text l) };

    fn fmt<W: fmt::Write>(&self, f: &mut fmt::Formatter<W>) -> fmt::Result {
        match self {
            SalvageLine::Gap { volume, at } => write!(f, "gap {} {at}", volume.as_str()),
            SalvageLine::Missing {
                first,
                last: Some(last),
            } => write!(f, "missing {first} {last}"),
            SalvageLine::Missing { first, last: None } => write!(f, "missing {first} -"),
            SalvageLine::Salvaged {
                records,
                bytes,
                gaps,
            } => write!(f, "salvaged {records} {bytes} gaps {gaps}"),
        }
    }
}
