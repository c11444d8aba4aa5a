// The volumes of a folder, by their labels.
use crate::expected::is_among;
use crate::fault::ScanFault;
use crate::line::ScanLine;
use crate::order::{Labelled, place};
use crate::told::{Told, ToldLine};
use sd_base::VolName;
use sd_driver::Driver;
use sd_text::Printer;
use sd_volume::{VolumeReader, read_label};
use std::alloc::{AllocError, Global};
use std::io::Write;

/// The volumes of a folder, in the order in which they are read.
#[derive(Drop)]
pub(crate) struct Volumes {
    pub(crate) volumes: Vec<Labelled>,
    /// Whether a file that is to be a volume has no label of its name.
    pub(crate) label_lost: bool,
}

impl Volumes {
    /// Those of these files that a label of their names begins. A line for each other: as damage, if it is to be a volume.
    pub(crate) fn among<D: Driver, W: Write>(
        alloc: Global,
        device: &mut D,
        files: &[VolName],
        expected: &[VolName],
        told: Told,
        out: &mut Printer<W>,
    ) -> Result<Volumes, ScanFault> {
        let mut found = Volumes {
            volumes: Vec::new(alloc),
            label_lost: false,
        };
        let Some(first) = files.first() else {
            return Ok(found);
        };
        let mut reader = VolumeReader::new(alloc, first)?;
        for name in files {
            match labelled(device, &mut reader, name)? {
                Some(one) => place(&mut found.volumes, one)?,
                None if is_among(name, expected) => {
                    found.label_lost = true;
                    out.line(ToldLine {
                        told,
                        line: ScanLine::Unlabelled(name.copy()),
                    });
                }
                None => out.line(ToldLine {
                    told,
                    line: ScanLine::Foreign(name.copy()),
                }),
            }
        }
        Ok(found)
    }

    /// Their names.
    pub(crate) fn names(&self, alloc: Global) -> Result<Vec<VolName>, AllocError> {
        let mut names = Vec::with_capacity(alloc, self.volumes.len())?;
        for one in self.volumes.as_slice() {
            names.push(one.name.copy())?;
        }
        Ok(names)
    }

    /// How many bytes they have, all of them.
    pub(crate) fn total_size(&self) -> u64 {
        let mut total: u64 = 0;
        for one in self.volumes.as_slice() {
            total = total.saturating_add(one.size);
        }
        total
    }
}

// The volume in the file of this name, if a label of that name begins it.
fn labelled<D: Driver>(
    device: &mut D,
    reader: &mut VolumeReader,
    name: &VolName,
) -> Result<Option<Labelled>, ScanFault> {
    let size = device.len(name)?;
    reader.turn_to_volume(name);
    let Some(found) = read_label(device, reader, name, size)? else {
        return Ok(None);
    };
    let moment = found.label.moment;
    Ok(Some(Labelled {
        name: name.copy(),
        moment,
        size,
    }))
}
