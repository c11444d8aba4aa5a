//! The daemon, from its configuration on. If that is asked for, the drives adopt the volumes of their folders first. Then each
//! drive has a worker and a thread that writes the notes of its volumes, and each client a thread that holds its talk, on a port of
//! this machine alone; if that is asked for, a thread writes the figures.
#![tactic(auto)]

mod address;
mod adopting;
mod conf_file;
mod daemon;
mod drive_figure;
mod drives;
mod ending;
mod figures_text;
mod folders;
mod hub;
mod judging;
mod locks;
mod metering;
mod note_figures;
mod note_keeping;
mod note_writer;
mod notes;
mod planning;
mod port_fault;
mod run;
mod serve_line;
mod settling;
mod shared;
mod starting;
mod takeover;
mod talk_means;
mod talks;
mod threads;
mod volume_note;
mod workers;

pub use conf_file::{Outcome, serve_file};
pub use daemon::{ServeFault, serve};
pub use folders::warn_of_folders;
pub use port_fault::PortFault;
pub use run::Bounds;
pub use serve_line::ServeLine;
