// The lines of a listing.
use sd_base::Refusal;
use sd_block::Head;
use sd_label::VolumeLabel;
use std::fmt;

/// A line of a listing. Displays it without the newline.
#[derive(Drop)]
pub enum ListLine {
    /// The label of the volume.
    Label(VolumeLabel),
    /// A block that starts at that byte.
    Block { start: u64, head: Head },
    /// So many bytes come after the blocks.
    Tail(u64),
    /// The listing is given up.
    Refused(Refusal),
}

impl fmt::Display for ListLine {
    ghost use Rattle.std.specs.Prelude.{Some};
    ghost use Rattle.sd_files.specs.Listing.{line_text};

    ghost output = { λ l. Some (line_text l) };

    fn fmt<W: fmt::Write>(&self, f: &mut fmt::Formatter<W>) -> fmt::Result {
        match self {
            ListLine::Label(label) => {
                let name = label.name.as_str();
                let pool = label.pool.as_str();
                let media = label.media.as_str();
                match &label.host {
                    None => write!(f, "label {name} {pool} {media}"),
                    Some(host) => {
                        let host = host.as_str();
                        write!(f, "label {name} {pool} {media} {host}")
                    }
                }
            }
            ListLine::Block { start, head } => {
                let number = head.number;
                let size = head.size;
                let time = head.key.time;
                let id = head.key.id;
                write!(f, "block {number} {start} {size} {time} {id}")
            }
            ListLine::Tail(count) => write!(f, "tail {count}"),
            ListLine::Refused(refusal) => write!(f, "{refusal}"),
        }
    }
}
