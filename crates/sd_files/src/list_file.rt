// The listing of a file.
ghost use Rattle.std.specs.Prelude.{◌≡◌};
ghost use Rattle.sd_base.specs.Refusal.{refusal_text};
ghost use Rattle.sd_files.specs.ListFile.{ListsFile};
ghost use Rattle.sd_text.specs.Says.{Says, said_view};
ghost use Rattle.sd_text.specs.Lines.{line};

use crate::host::Host;
use crate::list_line::ListLine;
use crate::path::split_path;
use crate::status::{FAILED, list_on};
use crate::watched::ShownProgress;
use sd_base::{Refusal, VolName};
use sd_text::Printer;
use std::io::Write;

/// Prints the listing of the volume in the file at `path`, whose name is the volume's: see `list_on`. A last word of the
/// path that is no name is refused as such. The file is only read, and none is made. Answers the status.
pub fn list_volume<H: Host + AllocGlobal, W: Write>(
    host: &H,
    path: &str,
    progress: ShownProgress,
    out: &mut Printer<W>,
) -> u8
    ensures { ListsFile (λ folder. H.device_of host.now folder progress) path.now
        (said_view W.contents out.old) (said_view W.contents out.new) result }
{
    let place = split_path(path);
    let Ok(name) = VolName::parse(place.name) else {
        return refused(out, Refusal::BadName);
    };
    let Ok(mut device) = host.open_folder(place.folder, progress) else {
        return refused(out, Refusal::Memory);
    };
    list_on(host.alloc(), &mut device, &name, out)
}

// Prints why nothing is listed.
fn refused<W: Write>(out: &mut Printer<W>, why: Refusal) -> u8
    ensures says { Says (said_view W.contents out.old) (said_view W.contents out.new)
        (line (refusal_text why)) }
    ensures status { result ≡ 1 }
{
    out.line(ListLine::Refused(why));
    out.flush();
    FAILED
}
