// A device whose reading is told of. But for that it is the device inside.
ghost use Rattle.std.specs.Prelude.{◌≡◌, if◌then◌else◌};
ghost use Rattle.sd_files.specs.declared.watched.ShownProgress.TheVariants.{Silent, Told};
ghost use Rattle.sd_files.specs.ShownProgress.{is_due, of_total, rate_of, seconds_left};

use sd_base::VolName;
use sd_driver::{Driver, DriverFault};
use std::time::{Clock, Instant};

/// How many bytes are read from one line to the next.
const STEP: u64 = 256_000_000;

/// Whether a reading is told of.
#[derive(Clone, Copy, Debug, PartialEq, Eq)]
pub enum ShownProgress {
    Silent,
    /// A line to standard error every 256,000,000 bytes.
    Told,
    /// A line like that of `Told`, with the rate so far and how long the rest of so many bytes takes at it.
    Of(u64),
}

impl ShownProgress {
    /// A reading is told of if that is asked for.
    pub fn asked(is_asked: bool) -> ShownProgress
        ensures { result ≡ (if is_asked then Told else Silent) }
    {
        if is_asked {
            ShownProgress::Told
        } else {
            ShownProgress::Silent
        }
    }

    /// How a reading of so many bytes is told of, if it is told of at all.
    pub fn of(self, total: u64) -> ShownProgress
        ensures { result ≡ of_total self total }
    {
        match self {
            ShownProgress::Silent => ShownProgress::Silent,
            ShownProgress::Told | ShownProgress::Of(_) => ShownProgress::Of(total),
        }
    }
}

/// The device inside, with a count of the bytes that were read of it.
#[derive(Drop)]
pub struct WatchedDevice<D, R: Eprint + Clock + Drop> {
    device: D,
    system: R,
    progress: ShownProgress,
    read: u64,
    /// When it was made, if the clock told that.
    begun: Option<Instant>,
}

impl<D, R: Eprint + Clock + Drop> WatchedDevice<D, R> {
    pub fn new(device: D, system: R, progress: ShownProgress) -> Self
        ensures device { result.device ≡ device }
        ensures progress { result.progress ≡ progress }
    {
        let begun = Instant::now(&system).ok();
        WatchedDevice {
            device,
            system,
            progress,
            read: 0,
            begun,
        }
    }

    // Counts bytes that were read, and tells of them if it is time.
    fn count(&mut self, bytes: u64)
        ensures { self.new.device ≡ self.old.device }
    {
        let before = self.read;
        self.read = before.saturating_add(bytes);
        if is_due(before, self.read) {
            self.tell();
        }
    }

    // Tells of the bytes so far. If the line can't be written, the reading goes on.
    fn tell(&self) {
        let read = self.read;
        let _ = match self.progress {
            ShownProgress::Silent => Ok(()),
            ShownProgress::Told => self.system.eprintln(format_args!("{read} bytes read")),
            ShownProgress::Of(total) => {
                let rate = rate_of(read, self.millis());
                let left = seconds_left(total.saturating_sub(read), rate);
                self.system.eprintln(format_args!(
                    "{read} bytes read, {rate} bytes/s, {left} s left"
                ))
            }
        };
    }

    // How many milliseconds it has been read; 0 if the clock doesn't tell.
    fn millis(&self) -> u64 {
        let Some(begun) = self.begun else {
            return 0;
        };
        match begun.elapsed(&self.system) {
            Ok(time) => {
                let millis = u64::from(time.subsec_millis());
                time.as_secs().saturating_mul(1000).saturating_add(millis)
            }
            Err(_) => 0,
        }
    }
}

// How many bytes a second these are, in so many milliseconds.
fn rate_of(bytes: u64, millis: u64) -> u64
    ensures { result ≡ rate_of bytes millis }
{
    (bytes / millis.max(1)).saturating_mul(1000)
}

// How many seconds so many bytes take at that rate.
fn seconds_left(bytes: u64, rate: u64) -> u64
    ensures { result ≡ seconds_left bytes rate }
{
    bytes / rate.max(1)
}

// Whether a line is due between two counts of bytes.
fn is_due(before: u64, after: u64) -> bool
    ensures { result ≡ is_due before after }
{
    before / STEP < after / STEP
}

impl<D: Driver, R: Eprint + Clock + Send + Drop> Driver for WatchedDevice<D, R> {
    ghost meaning = { λ w. D.meaning w.device };

    fn create(&mut self, name: &VolName) -> Result<(), DriverFault> {
        self.device.create(name)
    }

    fn load(&mut self, name: &VolName) -> Result<(), DriverFault> {
        self.device.load(name)
    }

    fn unload(&mut self) {
        self.device.unload()
    }

    fn len(&mut self, name: &VolName) -> Result<u64, DriverFault> {
        self.device.len(name)
    }

    fn read_at(&mut self, name: &VolName, at: u64, into: &mut [u8]) -> Result<usize, DriverFault> {
        let read = self.device.read_at(name, at, into);
        if let Ok(count) = read {
            self.count(count as u64);
        }
        read
    }

    fn append(&mut self, bytes: &[u8]) -> Result<(), DriverFault> {
        self.device.append(bytes)
    }

    fn sync(&mut self) -> Result<(), DriverFault> {
        self.device.sync()
    }

    fn cut(&mut self, to: u64) -> Result<(), DriverFault> {
        self.device.cut(to)
    }

    fn failures(&self) -> u64 {
        self.device.failures()
    }
}
