// The data of a label while it is put together. There is room for the longest label, so that it
// takes no memory, and a label is added to what it goes into at once.
ghost use Rattle.std.specs.Prelude.{◌≡◌, ◌+◌, ◌≤◌, [], ◌++◌, length, IfSome};
ghost use Rattle.sd_base.specs.Field.{u32_bytes, u64_bytes, i64_bytes};
ghost use Rattle.sd_base.specs.Name.{IsName};
ghost use Rattle.sd_label.specs.Label.{most_label_data, text_bytes, front_bytes, host_bytes, totals_bytes, AreTotals};

use crate::label::{ENDED_STATUS, PROFILE, Totals};
use sd_base::{HostName, put_i64, put_u32, put_u64};
use std::marker::Model;

/// The most data bytes of a label: a volume label with its host, all four names of 127 characters.
pub const MOST_LABEL_DATA: usize = 536;

/// The bytes of what every label begins with.
pub const FRONT_LENGTH: usize = 16;

/// The bytes of a moment.
pub const MOMENT_LENGTH: usize = 8;

/// The bytes of what an end label has after the fields that every session label has.
pub const TOTALS_LENGTH: usize = 20;

/// The data of a label so far. In a contract it is the list of its bytes.
#[derive(Drop)]
pub struct LabelData {
    bytes: [u8; MOST_LABEL_DATA],
    used: usize,
}

impl Model for LabelData {
    ghost use Rattle.std.specs.Prelude.{◌≡◌, List, ℕ, ◌≤◌, length, take};
    ghost use Rattle.sd_label.specs.Label.{most_label_data};

    ghost Value = { List ℕ };

    ghost view = { λ d. take d.used d.bytes };

    ghost invariant = { λ d. (length d.bytes ≡ most_label_data) × (d.used ≤ most_label_data) };
}

impl LabelData {
    pub fn new() -> Self
        ensures { result ≡ [] }
    {
        LabelData {
            bytes: [0; MOST_LABEL_DATA],
            used: 0,
        }
    }

    pub fn as_slice(&self) -> &[u8]
        ensures bytes { result.now ≡ self.now }
        ensures most { length result.now ≤ most_label_data }
    {
        &self.bytes[..self.used]
    }

    pub fn add_u32(&mut self, value: u32)
        requires { length self.old + 4 ≤ most_label_data }
        ensures bytes { self.new ≡ self.old ++ u32_bytes value }
        ensures length { length self.new ≡ length self.old + 4 }
    {
        put_u32(&mut self.bytes, self.used, value);
        self.used += 4;
    }

    pub fn add_u64(&mut self, value: u64)
        requires { length self.old + 8 ≤ most_label_data }
        ensures bytes { self.new ≡ self.old ++ u64_bytes value }
        ensures length { length self.new ≡ length self.old + 8 }
    {
        put_u64(&mut self.bytes, self.used, value);
        self.used += 8;
    }

    pub fn add_i64(&mut self, value: i64)
        requires { length self.old + 8 ≤ most_label_data }
        ensures bytes { self.new ≡ self.old ++ i64_bytes value }
        ensures length { length self.new ≡ length self.old + 8 }
    {
        put_i64(&mut self.bytes, self.used, value);
        self.used += 8;
    }

    pub fn add_text(&mut self, text: &str)
        requires { length self.old + length text.now + 1 ≤ most_label_data }
        ensures bytes { self.new ≡ self.old ++ text_bytes text.now }
        ensures length { length self.new ≡ length self.old + length text.now + 1 }
    {
        let end = self.used + text.len();
        self.bytes[self.used..end].copy_from_slice(text.as_bytes());
        self.bytes[end] = 0;
        self.used = end + 1;
    }

    /// Adds what every label begins with, in this version.
    pub fn add_front(&mut self, version: u32)
        requires { length self.old + 16 ≤ most_label_data }
        ensures bytes { self.new ≡ self.old ++ front_bytes version }
        ensures length { length self.new ≡ length self.old + 16 }
    {
        self.add_text(PROFILE);
        self.add_u32(version);
    }

    /// Adds what a volume label with a host has after the fields that every volume label has.
    pub fn add_host(&mut self, host: &Option<HostName>)
        requires { length self.old + 128 ≤ most_label_data }
        ensures host { IfSome host.now IsName }
        ensures bytes { self.new ≡ self.old ++ host_bytes host.now }
    {
        if let Some(host) = host {
            self.add_text(host.as_str());
        }
    }

    /// Adds what an end label has after the fields that every session label has.
    pub fn add_totals(&mut self, totals: Option<Totals>)
        requires { length self.old + 20 ≤ most_label_data }
        ensures totals { IfSome totals AreTotals }
        ensures bytes { self.new ≡ self.old ++ totals_bytes totals }
    {
        if let Some(totals) = totals {
            self.add_u64(totals.records);
            self.add_u64(totals.bytes);
            self.add_u32(ENDED_STATUS);
        }
    }
}

/// The bytes of a name as a text of a label.
pub fn text_length(name: &str) -> usize
    requires { IsName name.now }
    ensures length { result ≡ length name.now + 1 }
    ensures most { result ≤ 128 }
{
    name.len() + 1
}
