// Session labels, both ways: what is read is exactly what is written.
ghost use Rattle.std.specs.Prelude.{◌≡◌, ◌↔◌, ◌≤◌, ◌++◌, length, IfOk, IsOk, OnOk, OnErr, Ok};
ghost use Rattle.sd_label.specs.Label.{most_session_label, IsSessionLabel, session_label_bytes, session_label_data, session_label_index, totals_bytes};
ghost use Rattle.sd_label.specs.declared.label.SessionLabel.{SessionLabel as SpecSessionLabel};

use crate::data::{FRONT_LENGTH, LabelData, MOMENT_LENGTH, TOTALS_LENGTH, text_length};
use crate::fields::Fields;
use crate::label::{END_LABEL, NotOurs, SESSION_LABEL_VERSION, START_LABEL, SessionLabel, Totals};
use crate::record::whole_record;
use sd_record::{Fragment, HEADER_LENGTH, put_fragment};
use std::alloc::AllocError;

// The bytes of a JobId.
const JOB_LENGTH: usize = 4;

/// Adds the record of a session label, header and data, at the end of `out`
/// (as: Bacula Developer's Guide, storage media output format).
pub fn put_session_label(out: &mut Vec<u8>, label: &SessionLabel) -> Result<(), AllocError>
    ensures label { IsSessionLabel label.now }
    ensures ok { OnOk result (out.new.items ≡ out.old.items ++ session_label_bytes label.now) }
    ensures err { OnErr result (out.new.items ≡ out.old.items) }
{
    let data = data_of(label);
    let part = data.as_slice();
    let index = match label.totals {
        None => START_LABEL,
        Some(_) => END_LABEL,
    };
    put_fragment(
        out,
        &Fragment {
            index,
            stream: label.job.get() as i32,
            size: part.len() as u32,
            part,
        },
    )
}

/// The bytes of the record that `put_session_label` adds.
pub fn session_label_length(label: &SessionLabel) -> usize
    ensures length { result ≡ length (session_label_bytes label.now) }
    ensures most { result ≤ most_session_label }
{
    HEADER_LENGTH
        + FRONT_LENGTH
        + JOB_LENGTH
        + MOMENT_LENGTH
        + text_length(label.pool.as_str())
        + text_length(label.media.as_str())
        + totals_length(label.totals)
}

/// The session label whose record, header and data, is all of `bytes`
/// (as: Bacula Developer's Guide, storage media output format).
pub fn read_session_label(bytes: &[u8]) -> Result<SessionLabel, NotOurs>
    ensures ours { IsOk result
        ↔ ((label : SpecSessionLabel) × IsSessionLabel label
        × (bytes.now ≡ session_label_bytes label)) }
    ensures label { IfOk result
        (λ label. IsSessionLabel label × (bytes.now ≡ session_label_bytes label)) }
    ensures read_back { (label : SpecSessionLabel) → IsSessionLabel label
        → bytes.now ≡ session_label_bytes label → result ≡ Ok label }
{
    let record = whole_record(bytes)?;
    let label = label_of(record.index, record.part)?;
    if record.stream != label.job.get() as i32 {
        return Err(NotOurs);
    }
    Ok(label)
}

fn totals_length(totals: Option<Totals>) -> usize
    ensures length { result ≡ length (totals_bytes totals) }
    ensures most { result ≤ 20 }
{
    match totals {
        None => 0,
        Some(_) => TOTALS_LENGTH,
    }
}

fn data_of(label: &SessionLabel) -> LabelData
    ensures label { IsSessionLabel label.now }
    ensures bytes { result ≡ session_label_data label.now }
{
    let mut data = LabelData::new();
    data.add_front(SESSION_LABEL_VERSION);
    data.add_u32(label.job.get());
    data.add_i64(label.moment);
    data.add_text(label.pool.as_str());
    data.add_text(label.media.as_str());
    data.add_totals(label.totals);
    data
}

fn label_of(index: i32, bytes: &[u8]) -> Result<SessionLabel, NotOurs>
    ensures label { IfOk result (λ label. IsSessionLabel label) }
    ensures index { IfOk result (λ label. session_label_index label.totals ≡ index) }
    ensures bytes { IfOk result (λ label. bytes.now ≡ session_label_data label) }
    ensures read_back { (label : SpecSessionLabel) → IsSessionLabel label
        → session_label_index label.totals ≡ index → bytes.now ≡ session_label_data label
        → result ≡ Ok label }
{
    let mut fields = Fields::new(bytes);
    let version = fields.take_front()?;
    if version != SESSION_LABEL_VERSION {
        return Err(NotOurs);
    }
    let job = fields.take_job()?;
    let moment = fields.take_i64()?;
    let pool = fields.take_name()?;
    let media = fields.take_name()?;
    let totals = fields.take_ending(index)?;
    Ok(SessionLabel {
        job,
        pool,
        media,
        moment,
        totals,
    })
}
