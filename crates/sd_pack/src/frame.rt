// The bytes of a body that is being filled, after room for the block's header.
ghost use Rattle.std.specs.Prelude.{◌≡◌, ◌≤◌, [], ◌++◌, length, drop, IfOk, OnOk, OnErr};
ghost use Rattle.sd_base.specs.Limits.{block_header};
ghost use Rattle.sd_record.specs.Fragment.{fragment_bytes};
ghost use Rattle.sd_label.specs.Label.{IsSessionLabel, session_label_bytes};

use sd_base::BLOCK_HEADER;
use sd_block::FramedBody;
use sd_label::{SessionLabel, put_session_label};
use sd_record::{Fragment, put_fragment};
use std::alloc::{AllocError, Global};
use std::marker::Model;

/// The bytes of a body that more may be added to. In a contract it is their list.
#[derive(Drop)]
pub struct Frame {
    /// Room for the header and the bytes; nothing at all before the first of them.
    frame: Vec<u8>,
}

impl Model for Frame {
    ghost use Rattle.std.specs.Prelude.{List, ℕ, drop};
    ghost use Rattle.sd_base.specs.Limits.{block_header};

    ghost Value = { List ℕ };

    ghost view = { λ f. drop block_header f.frame.items };
}

impl Frame {
    /// No bytes; takes no memory.
    pub fn empty(alloc: Global) -> Self
        ensures { result ≡ [] }
    {
        Frame {
            frame: Vec::new(alloc),
        }
    }

    /// No bytes, with memory for `room` of them and the header.
    pub fn with_room(alloc: Global, room: usize) -> Result<Self, AllocError>
        ensures { IfOk result (λ frame. frame ≡ []) }
    {
        Ok(Frame {
            frame: Vec::with_capacity(alloc, BLOCK_HEADER.saturating_add(room))?,
        })
    }

    pub fn len(&self) -> usize
        ensures { result ≡ length self.now }
    {
        self.frame.len().saturating_sub(BLOCK_HEADER)
    }

    pub fn put_fragment(&mut self, fragment: &Fragment<'_>) -> Result<(), AllocError>
        ensures ok { OnOk result (self.new ≡ self.old ++ fragment_bytes fragment.now) }
        ensures err { OnErr result (self.new ≡ self.old) }
    {
        make_header_room(&mut self.frame)?;
        put_fragment(&mut self.frame, fragment)?;
        Ok(())
    }

    pub fn put_label(&mut self, label: &SessionLabel) -> Result<(), AllocError>
        ensures label { OnOk result (IsSessionLabel label.now) }
        ensures ok { OnOk result (self.new ≡ self.old ++ session_label_bytes label.now) }
        ensures err { OnErr result (self.new ≡ self.old) }
    {
        make_header_room(&mut self.frame)?;
        put_session_label(&mut self.frame, label)?;
        Ok(())
    }

    /// The bytes as a body that nothing is added to; takes no memory.
    pub fn into_body(self) -> FramedBody
        ensures { result.bytes ≡ self }
    {
        let Frame { frame } = self;
        FramedBody::from_frame(frame)
    }
}

// Makes room for the block's header, if there is none yet.
fn make_header_room(frame: &mut Vec<u8>) -> Result<(), AllocError>
    ensures room { OnOk result (block_header ≤ length frame.new.items) }
    ensures body { drop block_header frame.new.items ≡ drop block_header frame.old.items }
{
    if frame.len() < BLOCK_HEADER {
        frame.resize(BLOCK_HEADER, 0)?;
    }
    Ok(())
}
