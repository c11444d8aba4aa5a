// A run of a daemon.
use sd_base::VolName;
use sd_conf::Conf;
use sd_serve::Log;

/// How long a daemon serves, how long its talks wait, where its figures are written, and which volumes it adopts before.
#[derive(Clone, Copy)]
pub struct Bounds<'b> {
    /// After how many talks the daemon ends; 0 if it goes on.
    pub talks: u32,
    /// How many seconds a record and a close wait for a volume that their drive needs.
    pub wait: u32,
    /// The file that its figures are written to, if any.
    pub metrics: Option<&'b str>,
    /// The file that ends the daemon once it is there, if any.
    pub until: Option<&'b str>,
    /// Whether the volumes of the drives' folders are adopted before clients are served.
    pub adopt: bool,
    /// The damaged volumes that are adopted too, and cut where they are damaged.
    pub adopt_damaged: &'b [VolName],
}

/// A run of a daemon.
#[derive(Drop)]
pub(crate) struct Run<'d, W, L> {
    pub(crate) rt: &'d HostRuntime,
    pub(crate) wait: W,
    pub(crate) conf: &'d Conf,
    /// Its time.
    pub(crate) time: u32,
    pub(crate) bounds: Bounds<'d>,
    pub(crate) log: &'d Log<L>,
}
