// Histories of a device's calls, whatever device it is, told as text: a mark for what each call answers.
ghost use Rattle.std.specs.Prelude.{◌≡◌, false, None, IsTrue, IsSome};

use sd_base::VolName;
use sd_driver::{Driver, DriverFault};
use std::alloc::AllocError;

/// A step of a history.
#[derive(Clone, Copy)]
pub enum Step {
    Create(&'static str),
    Load(&'static str),
    Unload,
    Len(&'static str),
    /// Four bytes from that place on.
    Read(&'static str, u64),
    Append(&'static [u8]),
    Sync,
    Cut(u64),
}

impl Step {
    // The volume that the step names; any other name if it names none.
    fn name(self) -> &'static str {
        match self {
            Step::Create(name) => name,
            Step::Load(name) => name,
            Step::Len(name) => name,
            Step::Read(name, _) => name,
            _ => "None",
        }
    }
}

/// A device on a bench, which keeps in mind whether a volume is loaded.
#[derive(Drop)]
pub struct Bench<D: Driver + Drop> {
    pub driver: D,
    pub loaded: bool,
    ghost some: { IsTrue loaded → IsSome (D.meaning driver).loaded },
    ghost none: { loaded ≡ false → (D.meaning driver).loaded ≡ None },
}

/// The letter of a fault.
pub fn letter_of(fault: DriverFault) -> char {
    match fault {
        DriverFault::NotThere => 'N',
        DriverFault::Exists => 'E',
        DriverFault::NoRoom => 'R',
        DriverFault::Device => 'D',
        DriverFault::Memory => 'M',
    }
}

fn tell(text: &mut String, answer: Result<(), DriverFault>) -> Result<(), AllocError> {
    match answer {
        Ok(()) => text.push('.'),
        Err(fault) => text.push(letter_of(fault)),
    }
}

impl<D: Driver + Drop> Bench<D> {
    fn create(&mut self, text: &mut String, name: &VolName) -> Result<(), AllocError> {
        if self.loaded {
            return text.push('s');
        }
        let answer = self.driver.create(name);
        self.loaded = answer.is_ok();
        tell(text, answer)
    }

    fn load(&mut self, text: &mut String, name: &VolName) -> Result<(), AllocError> {
        if self.loaded {
            return text.push('s');
        }
        let answer = self.driver.load(name);
        self.loaded = answer.is_ok();
        tell(text, answer)
    }

    fn unload(&mut self, text: &mut String) -> Result<(), AllocError> {
        self.driver.unload();
        self.loaded = false;
        text.push('.')
    }

    fn len(&mut self, text: &mut String, name: &VolName) -> Result<(), AllocError> {
        match self.driver.len(name) {
            Ok(length) => write!(text, "{length}"),
            Err(fault) => text.push(letter_of(fault)),
        }
    }

    fn read(
        &mut self,
        text: &mut String,
        name: &VolName,
        at: u64,
        into: &mut [u8],
    ) -> Result<(), AllocError> {
        match self.driver.read_at(name, at, into) {
            Ok(count) => {
                let bytes = &into[..count];
                write!(text, "{bytes:?}")
            }
            Err(fault) => text.push(letter_of(fault)),
        }
    }

    fn append(&mut self, text: &mut String, bytes: &[u8]) -> Result<(), AllocError> {
        if !self.loaded {
            return text.push('s');
        }
        let answer = self.driver.append(bytes);
        tell(text, answer)
    }

    fn sync(&mut self, text: &mut String) -> Result<(), AllocError> {
        if !self.loaded {
            return text.push('s');
        }
        let answer = self.driver.sync();
        tell(text, answer)
    }

    fn cut(&mut self, text: &mut String, to: u64) -> Result<(), AllocError> {
        if !self.loaded {
            return text.push('s');
        }
        let answer = self.driver.cut(to);
        tell(text, answer)
    }

    fn call(&mut self, text: &mut String, name: &VolName, step: Step) -> Result<(), AllocError> {
        match step {
            Step::Create(_) => self.create(text, name),
            Step::Load(_) => self.load(text, name),
            Step::Unload => self.unload(text),
            Step::Len(_) => self.len(text, name),
            Step::Read(_, at) => self.read(text, name, at, &mut [0; 4]),
            Step::Append(bytes) => self.append(text, bytes),
            Step::Sync => self.sync(text),
            Step::Cut(to) => self.cut(text, to),
        }
    }

    /// Takes a step. Tells '.', a letter for a fault, a length or bytes; 's' for a step that is skipped.
    pub fn step(&mut self, text: &mut String, step: Step) -> Result<(), AllocError> {
        match VolName::parse(step.name()) {
            Ok(name) => self.call(text, &name, step),
            Err(_) => text.push('?'),
        }
    }

    /// Tells the bytes of a volume, sixteen at the most.
    pub fn bytes_of(&mut self, text: &mut String, name: &str) -> Result<(), AllocError> {
        match VolName::parse(name) {
            Ok(name) => self.read(text, &name, 0, &mut [0; 16]),
            Err(_) => text.push('?'),
        }
    }
}

/// Takes the steps in order. Tells each with a blank after it.
pub fn play<D: Driver + Drop>(
    text: &mut String,
    bench: &mut Bench<D>,
    steps: &[Step],
) -> Result<(), AllocError> {
    for step in steps {
        bench.step(text, *step)?;
        text.push(' ')?;
    }
    Ok(())
}
