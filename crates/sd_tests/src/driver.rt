// The trait `Driver` as its implementations see it: a device that is always broken, and an enum and a box of it and of
// the one in memory, which show that drivers of several kinds go together.
ghost use Rattle.std.specs.Prelude.{◌≡◌, ◌≤◌, ℕ, OnOk, None, length};
ghost use Rattle.sd_base.specs.Count.{Rose};
ghost use Rattle.sd_driver.specs.Meaning.{IsHonest};
ghost use Rattle.sd_driver.specs.Shelf.{Lasts, low_mark};

use crate::calls::{Bench, Step, play};
use sd_base::VolName;
use sd_driver::{Driver, DriverFault};
use sd_memdrive::MemDrive;
use std::alloc::{AllocError, Global};
use std::test::Fail;

// A device that fails every call.
#[derive(Drop)]
struct Broken {
    loaded: Option<VolName>,
    failures: u64,
}

impl Broken {
    fn fail(&mut self) -> DriverFault
        ensures fault { result ≡ DriverFault.Device }
        ensures counted { Rose self.old.failures self.new.failures }
        ensures later { self.old.failures ≤ self.new.failures }
        ensures loaded { self.new.loaded ≡ self.old.loaded }
    {
        self.failures = self.failures.saturating_add(1);
        DriverFault::Device
    }
}

impl Driver for Broken {
    ghost use Rattle.std.specs.Prelude.{Bool, false, None, []};

    ghost meaning = { λ d. record {
      honest = false;
      shelf = record { volume = λ _. None; moment = 0; kept = λ _ _. [] };
      loaded = d.loaded;
      failures = d.failures;
      told = 0;
    } };

    fn create(&mut self, _name: &VolName) -> Result<(), DriverFault> {
        Err(self.fail())
    }

    fn load(&mut self, _name: &VolName) -> Result<(), DriverFault> {
        Err(self.fail())
    }

    fn unload(&mut self) {
        self.loaded = None;
    }

    fn len(&mut self, _name: &VolName) -> Result<u64, DriverFault> {
        Err(self.fail())
    }

    fn read_at(
        &mut self,
        _name: &VolName,
        _at: u64,
        _into: &mut [u8],
    ) -> Result<usize, DriverFault> {
        Err(self.fail())
    }

    fn append(&mut self, _bytes: &[u8]) -> Result<(), DriverFault> {
        Err(self.fail())
    }

    fn sync(&mut self) -> Result<(), DriverFault> {
        Err(self.fail())
    }

    fn cut(&mut self, _to: u64) -> Result<(), DriverFault> {
        Err(self.fail())
    }

    fn failures(&self) -> u64 {
        self.failures
    }
}

// Either of the two.
#[derive(Drop)]
enum Either {
    Broken(Broken),
    Memory(MemDrive),
}

impl Driver for Either {
    ghost use Rattle.sd_tests.specs.declared.driver.Either.TheVariants.{Broken, Memory};

    ghost meaning = { λ d. elim d [
      | Broken b ↦ ⟦<Broken as Driver>⟧.meaning b
      | Memory m ↦
          ⟦<MemDrive as Driver>⟧.meaning m
    ] };

    fn create(&mut self, name: &VolName) -> Result<(), DriverFault> {
        match self {
            Either::Broken(driver) => driver.create(name),
            Either::Memory(driver) => driver.create(name),
        }
    }

    fn load(&mut self, name: &VolName) -> Result<(), DriverFault> {
        match self {
            Either::Broken(driver) => driver.load(name),
            Either::Memory(driver) => driver.load(name),
        }
    }

    fn unload(&mut self) {
        match self {
            Either::Broken(driver) => driver.unload(),
            Either::Memory(driver) => driver.unload(),
        }
    }

    fn len(&mut self, name: &VolName) -> Result<u64, DriverFault> {
        match self {
            Either::Broken(driver) => driver.len(name),
            Either::Memory(driver) => driver.len(name),
        }
    }

    fn read_at(&mut self, name: &VolName, at: u64, into: &mut [u8]) -> Result<usize, DriverFault> {
        match self {
            Either::Broken(driver) => driver.read_at(name, at, into),
            Either::Memory(driver) => driver.read_at(name, at, into),
        }
    }

    fn append(&mut self, bytes: &[u8]) -> Result<(), DriverFault> {
        match self {
            Either::Broken(driver) => driver.append(bytes),
            Either::Memory(driver) => driver.append(bytes),
        }
    }

    fn sync(&mut self) -> Result<(), DriverFault> {
        match self {
            Either::Broken(driver) => driver.sync(),
            Either::Memory(driver) => driver.sync(),
        }
    }

    fn cut(&mut self, to: u64) -> Result<(), DriverFault> {
        match self {
            Either::Broken(driver) => driver.cut(to),
            Either::Memory(driver) => driver.cut(to),
        }
    }

    fn failures(&self) -> u64 {
        match self {
            Either::Broken(driver) => driver.failures(),
            Either::Memory(driver) => driver.failures(),
        }
    }
}

// The calls that may be made while nothing is loaded.
static CALLS: [Step; 6] = [
    Step::Create("Vol-0001"),
    Step::Unload,
    Step::Load("Vol-0001"),
    Step::Unload,
    Step::Len("Vol-0001"),
    Step::Read("Vol-0001", 0),
];

// What a caller of any driver sees: what these calls tell, and then the count of failures.
fn told_of<D: Driver + Drop>(alloc: Global, driver: D) -> Result<String, AllocError>
    requires { (D.meaning driver).loaded ≡ None }
{
    let mut bench = Bench {
        driver,
        loaded: false,
    };
    let mut text = String::new(alloc);
    play(&mut text, &mut bench, &CALLS)?;
    write!(text, "{}", bench.driver.failures())?;
    Ok(text)
}

// What a caller of any honest driver concludes: bytes that were synced last, over whatever else it does with
// the device, and a low mark says so.
fn keep<D: Driver>(
    driver: &mut D,
    name: &VolName,
    other: &VolName,
    bytes: &[u8],
) -> Result<(), DriverFault>
    requires honest { IsHonest (D.meaning driver.old) }
    requires loaded { (D.meaning driver.old).loaded ≡ None }
    ensures { OnOk result ((since : ℕ) × Lasts since name.now bytes.now (D.meaning driver.new).shelf
        × (length bytes.now ≤ low_mark (D.meaning driver.new).shelf since name.now)) }
{
    driver.create(name)?;
    driver.append(bytes)?;
    driver.sync()?;
    driver.unload();
    driver.create(other)?;
    driver.append(bytes)?;
    driver.cut(bytes.len() as u64)?;
    driver.unload();
    Ok(())
}

// Whether it keeps them, and tells them then.
fn keeps<D: Driver>(driver: &mut D) -> bool
    requires honest { IsHonest (D.meaning driver.old) }
    requires loaded { (D.meaning driver.old).loaded ≡ None }
{
    let (Ok(name), Ok(other)) = (VolName::parse("Vol-0001"), VolName::parse("Vol-0002")) else {
        return false;
    };
    let mut told = [0; 4];
    keep(driver, &name, &other, &[1, 2, 3]).is_ok()
        && driver.read_at(&name, 0, &mut told) == Ok(3)
        && told == [1, 2, 3, 0]
}

fn fails_all(failures: u64) -> Broken
    ensures loaded { result.loaded ≡ None }
{
    Broken {
        loaded: None,
        failures,
    }
}

#[test]
fn kinds_go_together(rt: HostRuntime) -> Result<(), Fail> {
    let kind = Either::Broken(fails_all(0));
    assert_eq!(rt; told_of(rt.alloc(), kind)?.as_str(), "D . D . D D 4");
    let drive = MemDrive::new(rt.alloc(), 8, &[])?;
    let kind = Either::Memory(drive);
    assert_eq!(rt; told_of(rt.alloc(), kind)?.as_str(), ". . . . 0 [] 0");
    Ok(())
}

#[test]
fn a_box_is_a_device(rt: HostRuntime) -> Result<(), Fail> {
    let boxed: Box<dyn Driver + Drop> = Box::new(rt.alloc(), fails_all(0))?;
    assert_eq!(rt; told_of(rt.alloc(), boxed)?.as_str(), "D . D . D D 4");
    let drive = MemDrive::new(rt.alloc(), 8, &[])?;
    let mut boxed: Box<dyn Driver + Drop> = Box::new(rt.alloc(), drive)?;
    assert!(rt; keeps(&mut boxed));
    Ok(())
}

#[test]
fn failures_stay_at_the_greatest(rt: HostRuntime) -> Result<(), Fail> {
    assert_eq!(rt;
        told_of(rt.alloc(), fails_all(u64::MAX))?.as_str(),
        "D . D . D D 18446744073709551615"
    );
    Ok(())
}
