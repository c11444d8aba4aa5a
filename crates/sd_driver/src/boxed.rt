// A boxed device is a device: each call goes to the one inside. For code that only calls its device and keeps
// no facts of it.
use crate::{Driver, DriverFault};
use sd_base::VolName;

impl Driver for Box<dyn Driver + Drop> {
    ghost meaning = { λ b. (Driver-box b).meaning b.value };

    fn create(&mut self, name: &VolName) -> Result<(), DriverFault> {
        (**self).create(name)
    }

    fn load(&mut self, name: &VolName) -> Result<(), DriverFault> {
        (**self).load(name)
    }

    fn unload(&mut self) {
        (**self).unload()
    }

    fn len(&mut self, name: &VolName) -> Result<u64, DriverFault> {
        (**self).len(name)
    }

    fn read_at(&mut self, name: &VolName, at: u64, into: &mut [u8]) -> Result<usize, DriverFault> {
        (**self).read_at(name, at, into)
    }

    fn append(&mut self, bytes: &[u8]) -> Result<(), DriverFault> {
        (**self).append(bytes)
    }

    fn sync(&mut self) -> Result<(), DriverFault> {
        (**self).sync()
    }

    fn cut(&mut self, to: u64) -> Result<(), DriverFault> {
        (**self).cut(to)
    }

    fn failures(&self) -> u64 {
        (**self).failures()
    }
}
