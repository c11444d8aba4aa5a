//! Lists a volume, and reads a session back from the volumes that its JobMedia text names. The volumes are files,
//! or on any device. It has where a program finds its texts and volumes, prints the records as they are read back, and
//! shows how far a reading has come.
#![tactic(auto)]

mod end;
mod host;
mod input;
mod lines;
mod list_file;
mod list_line;
mod listing;
mod path;
mod read_file;
mod reading;
mod record;
mod session;
mod sink;
mod status;
mod watched;

pub use end::EndLine;
pub use host::Host;
pub use input::SpansFault;
pub use lines::FileLine;
pub use list_file::list_volume;
pub use list_line::ListLine;
pub use listing::{ListFault, list};
pub use path::{Place, split_path};
pub use read_file::read_back;
pub use reading::{Extracted, extract};
pub use sink::{Before, PrintRecord, RecordPrinter};
pub use status::list_on;
pub use watched::{ShownProgress, WatchedDevice};
