// The operator's lines that name a volume at a drive.
use sd_base::{MOST_NUMBER, VolName};
use sd_text::Words;
use std::str;

/// What a line does with the volume that it names.
#[derive(Clone, Copy, Debug, PartialEq, Eq)]
pub enum NamingAct {
    Label,
    Adopt,
}

/// A line `label DRIVE VOLUME ..` or `adopt DRIVE VOLUME ..`.
#[derive(Drop)]
pub(crate) struct NamingLine {
    pub(crate) act: NamingAct,
    pub(crate) drive: u32,
    pub(crate) volume: VolName,
}

impl NamingLine {
    /// The line that begins with these bytes, if it is such a line. What follows isn't looked at.
    pub(crate) fn read(line: &[u8]) -> Option<Self> {
        let mut words = Words::new(str::from_utf8(line).ok()?);
        let act = match words.word().ok()? {
            "label" => NamingAct::Label,
            "adopt" => NamingAct::Adopt,
            _ => return None,
        };
        let drive = words.number(1, u64::from(MOST_NUMBER)).ok()?;
        let drive = u32::try_from(drive).ok()?;
        let volume = VolName::parse(words.word().ok()?).ok()?;
        Some(NamingLine { act, drive, volume })
    }
}
