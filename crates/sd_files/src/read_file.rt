// A session read back from the files of a folder.
ghost use Rattle.sd_files.specs.ReadFile.{ReadsFiles};
ghost use Rattle.sd_text.specs.Says.{said_view};

use crate::host::Host;
use crate::input::SpansFault;
use crate::reading::{Extracted, extract, given_up};
use crate::watched::ShownProgress;
use sd_span::JobMediaFault;
use sd_text::Printer;
use std::io::Write;

/// Reads the JobMedia text in the file `spans`, then the session that it names from the volumes in `folder`, each a
/// file of its name: see `extract`. Files are only read, and none is made.
pub fn read_back<H: Host + AllocGlobal, W: Write>(
    host: &H,
    spans: &str,
    folder: &str,
    progress: ShownProgress,
    out: Printer<W>,
) -> Extracted<W>
    ensures { ReadsFiles (H.text_at host.now spans.now)
        (H.device_of host.now folder.now progress)
        (said_view W.contents out) (said_view W.contents result.out) result.status }
{
    let Ok(mut reader) = host.open_text(spans) else {
        return given_up(SpansFault::File, out);
    };
    let Ok(mut device) = host.open_folder(folder, progress) else {
        return given_up(SpansFault::Text(JobMediaFault::Memory), out);
    };
    extract(host.alloc(), &mut device, &mut reader, out)
}
