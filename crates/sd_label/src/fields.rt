// The fields of a label's data, read one after another. What is read is said by its bytes, and
// whatever begins with a field's bytes is read as that field. After an Err no more is read.
ghost use Rattle.std.specs.Prelude.{◌≡◌, ℕ, ℤ, ◌+◌, ◌^◌, ◌<◌, ◌≤◌, ◌==◌, ◌↔◌, List, [], ◌++◌, codes, All, FitsSigned, IfOk, IsOk, IsOkAnd, IfSome, IsTrue, OnOk, Ok, Some, Option, length, position};
ghost use Rattle.std.specs.Int.{w64};
ghost use Rattle.sd_base.specs.Field.{u32_bytes, u64_bytes, i64_bytes};
ghost use Rattle.sd_base.specs.Limits.{most_number};
ghost use Rattle.sd_base.specs.Name.{IsName};
ghost use Rattle.sd_label.specs.Label.{HasNoZero, text_bytes, front_bytes, host_bytes, totals_bytes, session_label_index, volume_label_version, AreTotals};
ghost use Rattle.sd_label.specs.declared.label.Totals.{Totals as SpecTotals};

use crate::label::{
    END_LABEL, ENDED_STATUS, HOST_LABEL_VERSION, NotOurs, PROFILE, START_LABEL, Totals,
    VOLUME_LABEL_VERSION,
};
use sd_base::{HostName, JobId, Name, get_i64, get_u32, get_u64};
use std::marker::Model;
use std::str;

/// The fields that are left. In a contract they are the list of their bytes.
#[derive(Drop)]
pub struct Fields<'a> {
    rest: &'a [u8],
}

impl<'a> Model for Fields<'a> {
    ghost use Rattle.std.specs.Prelude.{List, ℕ};

    ghost Value = { List ℕ };

    ghost view = { λ f. f.rest.now };
}

impl<'a> Fields<'a> {
    pub fn new(bytes: &'a [u8]) -> Self
        ensures { result ≡ bytes.now }
    {
        Fields { rest: bytes }
    }

    pub fn take_u32(&mut self) -> Result<u32, NotOurs>
        ensures field { IfOk result (λ value. self.old ≡ u32_bytes value ++ self.new) }
        ensures read_back { (value : ℕ) (more : List ℕ) → value < 2 ^ 32
            → self.old ≡ u32_bytes value ++ more → (result ≡ Ok value) × (self.new ≡ more) }
    {
        let Ok(value) = get_u32(self.rest, 0) else {
            return Err(NotOurs);
        };
        self.rest = &self.rest[4..];
        Ok(value)
    }

    pub fn take_u64(&mut self) -> Result<u64, NotOurs>
        ensures field { IfOk result (λ value. self.old ≡ u64_bytes value ++ self.new) }
        ensures read_back { (value : ℕ) (more : List ℕ) → value < 2 ^ 64
            → self.old ≡ u64_bytes value ++ more → (result ≡ Ok value) × (self.new ≡ more) }
    {
        let Ok(value) = get_u64(self.rest, 0) else {
            return Err(NotOurs);
        };
        self.rest = &self.rest[8..];
        Ok(value)
    }

    pub fn take_i64(&mut self) -> Result<i64, NotOurs>
        ensures field { IfOk result (λ value. self.old ≡ i64_bytes value ++ self.new) }
        ensures read_back { (value : ℤ) (more : List ℕ) → FitsSigned w64 value
            → self.old ≡ i64_bytes value ++ more → (result ≡ Ok value) × (self.new ≡ more) }
    {
        let Ok(value) = get_i64(self.rest, 0) else {
            return Err(NotOurs);
        };
        self.rest = &self.rest[8..];
        Ok(value)
    }

    /// The number of a job.
    pub fn take_job(&mut self) -> Result<JobId, NotOurs>
        ensures job { IfOk result (λ job. (1 ≤ job) × (job ≤ most_number)) }
        ensures field { IfOk result (λ job. self.old ≡ u32_bytes job ++ self.new) }
        ensures read_back { (job : ℕ) (more : List ℕ) → 1 ≤ job → job ≤ most_number
            → self.old ≡ u32_bytes job ++ more → (result ≡ Ok job) × (self.new ≡ more) }
    {
        let value = self.take_u32()?;
        let Some(job) = JobId::new(value) else {
            return Err(NotOurs);
        };
        Ok(job)
    }

    /// The bytes up to the next zero byte, which is taken too.
    fn take_text(&mut self) -> Result<&'a [u8], NotOurs>
        ensures no_zero { IfOk result (λ text. HasNoZero text.now) }
        ensures field { IfOk result (λ text. self.old ≡ text_bytes text.now ++ self.new) }
        ensures read_back { (text more : List ℕ) → HasNoZero text
            → self.old ≡ text_bytes text ++ more
            → IsOkAnd result (λ found. found.now ≡ text) × (self.new ≡ more) }
    {
        let Some(end) = zero_byte(self.rest) else {
            return Err(NotOurs);
        };
        let text = &self.rest[..end];
        self.rest = &self.rest[end + 1..];
        Ok(text)
    }

    /// A text that is a name.
    pub fn take_name<K>(&mut self) -> Result<Name<K>, NotOurs>
        ensures name { IfOk result (λ name. IsName name) }
        ensures field { IfOk result (λ name. self.old ≡ text_bytes name ++ self.new) }
        ensures read_back { (name more : List ℕ) → IsName name
            → self.old ≡ text_bytes name ++ more → (result ≡ Ok name) × (self.new ≡ more) }
    {
        let text = self.take_text()?;
        name_of(text)
    }

    /// The version that a label says, after the text of the profile: what every label begins with.
    pub fn take_front(&mut self) -> Result<u32, NotOurs>
        ensures field { IfOk result (λ version. self.old ≡ front_bytes version ++ self.new) }
        ensures read_back { (version : ℕ) (more : List ℕ) → version < 2 ^ 32
            → self.old ≡ front_bytes version ++ more
            → (result ≡ Ok version) × (self.new ≡ more) }
    {
        let text = self.take_text()?;
        if !is_profile(text) {
            return Err(NotOurs);
        }
        self.take_u32()
    }

    /// What a volume label has last, by its version: nothing, or its host.
    pub fn take_host(&mut self, version: u32) -> Result<Option<HostName>, NotOurs>
        ensures host { IfOk result (λ host. IfSome host IsName) }
        ensures version { IfOk result (λ host. volume_label_version host ≡ version) }
        ensures field { IfOk result (λ host. self.old ≡ host_bytes host ++ self.new) }
        ensures read_back { (host : Option (List ℕ)) (more : List ℕ) → IfSome host IsName
            → volume_label_version host ≡ version → self.old ≡ host_bytes host ++ more
            → (result ≡ Ok host) × (self.new ≡ more) }
    {
        match version {
            VOLUME_LABEL_VERSION => Ok(None),
            HOST_LABEL_VERSION => Ok(Some(self.take_name()?)),
            _ => Err(NotOurs),
        }
    }

    /// What an end label has last: the totals, and the status of a job that ended.
    pub fn take_totals(&mut self) -> Result<Totals, NotOurs>
        ensures totals { IfOk result (λ totals. AreTotals totals) }
        ensures field { IfOk result (λ totals. self.old ≡ totals_bytes (Some totals) ++ self.new) }
        ensures read_back { (totals : SpecTotals) (more : List ℕ) → AreTotals totals
            → self.old ≡ totals_bytes (Some totals) ++ more
            → (result ≡ Ok totals) × (self.new ≡ more) }
    {
        let records = self.take_u64()?;
        let bytes = self.take_u64()?;
        let status = self.take_u32()?;
        if status != ENDED_STATUS {
            return Err(NotOurs);
        }
        Ok(Totals { records, bytes })
    }

    /// What a session label has last, by its FileIndex: nothing if it starts the session, the
    /// totals if it ends it. Nothing may come after it.
    pub fn take_ending(&mut self, index: i32) -> Result<Option<Totals>, NotOurs>
        ensures totals { IfOk result (λ totals. IfSome totals AreTotals) }
        ensures index { IfOk result (λ totals. session_label_index totals ≡ index) }
        ensures field { IfOk result (λ totals. self.old ≡ totals_bytes totals) }
        ensures read_back { (totals : Option SpecTotals) → IfSome totals AreTotals
            → session_label_index totals ≡ index → self.old ≡ totals_bytes totals
            → result ≡ Ok totals }
    {
        let totals = match index {
            START_LABEL => None,
            END_LABEL => Some(self.take_totals()?),
            _ => return Err(NotOurs),
        };
        if !self.is_empty() {
            return Err(NotOurs);
        }
        Ok(totals)
    }

    /// Whether no field is left.
    pub fn is_empty(&self) -> bool
        ensures { IsTrue result ↔ (self.now ≡ []) }
    {
        self.rest.is_empty()
    }
}

fn zero_byte(bytes: &[u8]) -> Option<usize>
    ensures { result ≡ position (λ byte. byte == 0) bytes.now }
{
    bytes.iter().position(|byte| *byte == 0)
}

fn is_profile(text: &[u8]) -> bool
    ensures { IsTrue result ↔ (text.now ≡ codes "sd-profile\n") }
{
    text == PROFILE.as_bytes()
}

fn name_of<K>(text: &[u8]) -> Result<Name<K>, NotOurs>
    ensures accepted { IsOk result ↔ IsName text.now }
    ensures spelled { IfOk result (λ name. name ≡ text.now) }
{
    let Ok(text) = str::from_utf8(text) else {
        return Err(NotOurs);
    };
    let Ok(name) = Name::parse(text) else {
        return Err(NotOurs);
    };
    Ok(name)
}
