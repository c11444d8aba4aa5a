// The volumes that are to be in a folder.
use crate::line::ScanLine;
use sd_base::{Refusal, VolName};
use sd_files::Host;
use std::alloc::Global;
use std::io::{ErrorKind, Read};
use std::str;

/// The names in the file at this path, one a line; empty lines are passed over. Else the line of why there are none.
pub(crate) fn expected_names<H: Host + AllocGlobal>(
    host: &H,
    path: &str,
) -> Result<Vec<VolName>, ScanLine> {
    let Ok(mut reader) = host.open_text(path) else {
        return Err(ScanLine::NoFile);
    };
    let mut bytes = Vec::new(host.alloc());
    match reader.read_to_end(&mut bytes) {
        Ok(_) => names_in(host.alloc(), &bytes),
        Err(fault) if fault.kind() == ErrorKind::OutOfMemory => {
            Err(ScanLine::Refused(Refusal::Memory))
        }
        Err(_) => Err(ScanLine::NoFile),
    }
}

// The names in a text, one a line.
fn names_in(alloc: Global, bytes: &[u8]) -> Result<Vec<VolName>, ScanLine> {
    let Ok(text) = str::from_utf8(bytes) else {
        return Err(ScanLine::Refused(Refusal::BadName));
    };
    let mut names = Vec::new(alloc);
    for line in text.lines() {
        if line.is_empty() {
            continue;
        }
        let Ok(name) = VolName::parse(line) else {
            return Err(ScanLine::Refused(Refusal::BadName));
        };
        let Ok(()) = names.push(name) else {
            return Err(ScanLine::Refused(Refusal::Memory));
        };
    }
    Ok(names)
}

/// Whether the name is one of these.
pub(crate) fn is_among(name: &VolName, names: &[VolName]) -> bool {
    for other in names {
        if name.as_str() == other.as_str() {
            return true;
        }
    }
    false
}
