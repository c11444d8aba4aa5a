// A drive of files at the greatest count of failures: each call that can fail is refused, and nothing is done.
use sd_base::VolName;
use sd_driver::{Driver, DriverFault};
use sd_filedrive::FileDrive;
use std::env;

// Whether a volume can be neither made nor looked at in the folder by a drive whose count is spent.
fn is_spent(rt: &HostRuntime, folder: &str, name: &VolName) -> Option<bool> {
    let drive = FileDrive::new(*rt, rt.alloc(), folder).ok()?;
    let mut drive = drive.counting_from(u64::MAX);
    let made = drive.create(name);
    let length = drive.len(name);
    let refused = made == Err(DriverFault::Device) && length == Err(DriverFault::Device);
    Some(refused && drive.failures() == u64::MAX && drive.told() == 0)
}

// Whether the folder has it.
fn is_there(rt: &HostRuntime, folder: &str, name: &VolName) -> Option<bool> {
    let mut drive = FileDrive::new(*rt, rt.alloc(), folder).ok()?;
    Some(drive.len(name) != Err(DriverFault::NotThere))
}

#[test]
fn greatest_count(rt: HostRuntime) {
    let name = VolName::parse("sd_tests_greatest_count").expect(&rt, "a name");
    let folder = env::temp_dir(&rt).expect(&rt, "a folder");
    assert_eq!(rt; is_spent(&rt, folder.as_str(), &name), Some(true));
    assert_eq!(rt; is_there(&rt, folder.as_str(), &name), Some(false));
}
