//! The labels of volumes and sessions, and their records
//! (as: Bacula Developer's Guide, storage media output format).
#![tactic(auto)]

mod cutting;
mod data;
mod fields;
mod label;
mod laws;
mod record;
mod session;
mod volume;

pub use cutting::{bodies_hold_one_list, front_holds_front, holding_begins_a_cutting};
pub use label::{
    END_LABEL, ENDED_STATUS, HOST_LABEL_VERSION, NotOurs, SESSION_LABEL_VERSION, START_LABEL,
    SessionLabel, Totals, VOLUME_LABEL, VOLUME_LABEL_VERSION, VOLUME_STREAM, VolumeLabel,
};
pub use laws::{label_kinds_apart, session_labels_apart, volume_labels_apart};
pub use session::{put_session_label, read_session_label, session_label_length};
pub use volume::{put_volume_label, read_volume_label, volume_label_length};
