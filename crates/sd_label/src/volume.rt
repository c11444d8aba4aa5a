// Volume labels, both ways: what is read is exactly what is written.
ghost use Rattle.std.specs.Prelude.{◌≡◌, ◌↔◌, ◌≤◌, ◌++◌, length, IfOk, IsOk, OnOk, OnErr, Ok};
ghost use Rattle.sd_label.specs.Label.{most_volume_label, IsVolumeLabel, host_bytes, volume_label_bytes, volume_label_data, volume_label_version};
ghost use Rattle.sd_label.specs.declared.label.VolumeLabel.{VolumeLabel as SpecVolumeLabel};

use crate::data::{FRONT_LENGTH, LabelData, MOMENT_LENGTH, text_length};
use crate::fields::Fields;
use crate::label::{
    HOST_LABEL_VERSION, NotOurs, VOLUME_LABEL, VOLUME_LABEL_VERSION, VOLUME_STREAM, VolumeLabel,
};
use crate::record::whole_record;
use sd_base::HostName;
use sd_record::{Fragment, HEADER_LENGTH, put_fragment};
use std::alloc::AllocError;

/// Adds the record of a volume label, header and data, at the end of `out`
/// (as: Bacula Developer's Guide, storage media output format).
pub fn put_volume_label(out: &mut Vec<u8>, label: &VolumeLabel) -> Result<(), AllocError>
    ensures label { IsVolumeLabel label.now }
    ensures ok { OnOk result (out.new.items ≡ out.old.items ++ volume_label_bytes label.now) }
    ensures err { OnErr result (out.new.items ≡ out.old.items) }
{
    let data = data_of(label);
    let part = data.as_slice();
    put_fragment(
        out,
        &Fragment {
            index: VOLUME_LABEL,
            stream: VOLUME_STREAM,
            size: part.len() as u32,
            part,
        },
    )
}

/// The bytes of the record that `put_volume_label` adds.
pub fn volume_label_length(label: &VolumeLabel) -> usize
    ensures length { result ≡ length (volume_label_bytes label.now) }
    ensures most { result ≤ most_volume_label }
{
    HEADER_LENGTH
        + FRONT_LENGTH
        + MOMENT_LENGTH
        + text_length(label.name.as_str())
        + text_length(label.pool.as_str())
        + text_length(label.media.as_str())
        + host_length(&label.host)
}

/// The volume label whose record, header and data, is all of `bytes`
/// (as: Bacula Developer's Guide, storage media output format).
pub fn read_volume_label(bytes: &[u8]) -> Result<VolumeLabel, NotOurs>
    ensures ours { IsOk result
        ↔ ((label : SpecVolumeLabel) × IsVolumeLabel label
        × (bytes.now ≡ volume_label_bytes label)) }
    ensures label { IfOk result
        (λ label. IsVolumeLabel label × (bytes.now ≡ volume_label_bytes label)) }
    ensures read_back { (label : SpecVolumeLabel) → IsVolumeLabel label
        → bytes.now ≡ volume_label_bytes label → result ≡ Ok label }
{
    let record = whole_record(bytes)?;
    if record.index != VOLUME_LABEL || record.stream != VOLUME_STREAM {
        return Err(NotOurs);
    }
    label_of(record.part)
}

fn host_length(host: &Option<HostName>) -> usize
    ensures length { result ≡ length (host_bytes host.now) }
    ensures most { result ≤ 128 }
{
    match host {
        None => 0,
        Some(host) => text_length(host.as_str()),
    }
}

fn version_of(host: &Option<HostName>) -> u32
    ensures { result ≡ volume_label_version host.now }
{
    match host {
        None => VOLUME_LABEL_VERSION,
        Some(_) => HOST_LABEL_VERSION,
    }
}

fn data_of(label: &VolumeLabel) -> LabelData
    ensures label { IsVolumeLabel label.now }
    ensures bytes { result ≡ volume_label_data label.now }
{
    let mut data = LabelData::new();
    data.add_front(version_of(&label.host));
    data.add_i64(label.moment);
    data.add_text(label.name.as_str());
    data.add_text(label.pool.as_str());
    data.add_text(label.media.as_str());
    data.add_host(&label.host);
    data
}

fn label_of(bytes: &[u8]) -> Result<VolumeLabel, NotOurs>
    ensures label { IfOk result (λ label. IsVolumeLabel label) }
    ensures bytes { IfOk result (λ label. bytes.now ≡ volume_label_data label) }
    ensures read_back { (label : SpecVolumeLabel) → IsVolumeLabel label
        → bytes.now ≡ volume_label_data label → result ≡ Ok label }
{
    let mut fields = Fields::new(bytes);
    let version = fields.take_front()?;
    let moment = fields.take_i64()?;
    let name = fields.take_name()?;
    let pool = fields.take_name()?;
    let media = fields.take_name()?;
    let host = fields.take_host(version)?;
    if !fields.is_empty() {
        return Err(NotOurs);
    }
    Ok(VolumeLabel {
        name,
        pool,
        media,
        moment,
        host,
    })
}
