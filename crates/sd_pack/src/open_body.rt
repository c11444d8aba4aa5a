// The body that is being filled.
ghost use Rattle.std.specs.Prelude.{◌≡◌, ◌+◌, ◌≤◌, ◌++◌, length, IfOk, OnOk, OnErr};
ghost use Rattle.sd_label.specs.Label.{IsSessionLabel, session_label_fragment};
ghost use Rattle.sd_pack.specs.Body.{IsBody, empty_body, with_fragment};

use crate::body::Body;
use crate::frame::Frame;
use sd_label::SessionLabel;
use sd_record::Fragment;
use std::alloc::{AllocError, Global};
use std::marker::Model;

/// A body that more may be added to. In a contract it is the `PackedBody` of what is in it.
#[derive(Drop)]
pub struct OpenBody {
    bytes: Frame,
    first: u32,
    last: u32,
}

impl Model for OpenBody {
    ghost use Rattle.sd_pack.specs.Body.{PackedBody};

    ghost Value = { PackedBody };

    ghost view = { λ b. record { bytes = b.bytes; first = b.first; last = b.last } };
}

impl OpenBody {
    /// Nothing; takes no memory.
    pub fn empty(alloc: Global) -> Self
        ensures { result ≡ empty_body }
    {
        OpenBody {
            bytes: Frame::empty(alloc),
            first: 0,
            last: 0,
        }
    }

    /// Nothing, with memory for `room` bytes.
    pub fn with_room(alloc: Global, room: usize) -> Result<Self, AllocError>
        ensures { IfOk result (λ body. body ≡ empty_body) }
    {
        Ok(OpenBody {
            bytes: Frame::with_room(alloc, room)?,
            first: 0,
            last: 0,
        })
    }

    /// One fragment, with memory for `room` bytes.
    pub fn of_fragment(
        alloc: Global,
        room: usize,
        fragment: &Fragment<'_>,
    ) -> Result<Self, AllocError>
        ensures { IfOk result (λ body. body ≡ with_fragment empty_body fragment.now) }
    {
        let mut body = OpenBody::with_room(alloc, room)?;
        body.add(fragment)?;
        Ok(body)
    }

    /// A label alone, with memory for `room` bytes.
    pub fn of_label(alloc: Global, room: usize, label: &SessionLabel) -> Result<Self, AllocError>
        ensures label { IfOk result (λ body. IsSessionLabel label.now) }
        ensures body { IfOk result
            (λ body. body ≡ with_fragment empty_body (session_label_fragment label.now)) }
    {
        let mut body = OpenBody::with_room(alloc, room)?;
        body.add_label(label)?;
        Ok(body)
    }

    pub fn len(&self) -> usize
        ensures { result ≡ length self.now.bytes }
    {
        self.bytes.len()
    }

    /// Adds a fragment of a record.
    pub fn add(&mut self, fragment: &Fragment<'_>) -> Result<(), AllocError>
        ensures ok { OnOk result (self.new ≡ with_fragment self.old fragment.now) }
        ensures err { OnErr result (self.new ≡ self.old) }
    {
        self.bytes.put_fragment(fragment)?;
        if fragment.index > 0 {
            let index = fragment.index as u32;
            if self.first == 0 {
                self.first = index;
            }
            self.last = index;
        }
        Ok(())
    }

    /// Adds a label, which has no FileIndex.
    pub fn add_label(&mut self, label: &SessionLabel) -> Result<(), AllocError>
        ensures label { OnOk result (IsSessionLabel label.now) }
        ensures ok { OnOk result
            (self.new ≡ with_fragment self.old (session_label_fragment label.now)) }
        ensures err { OnErr result (self.new ≡ self.old) }
    {
        self.bytes.put_label(label)
    }

    /// The body as one that nothing is added to; takes no memory.
    pub fn close(self) -> Body
        requires { IsBody self }
        ensures { result ≡ self }
    {
        let OpenBody { bytes, first, last } = self;
        Body {
            bytes: bytes.into_body(),
            first,
            last,
        }
    }
}
