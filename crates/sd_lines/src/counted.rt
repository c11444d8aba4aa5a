// A sink whose records are counted.
use crate::amount::AmountCounter;
use sd_base::Rec;
use sd_readback::Sink;
use std::alloc::AllocError;

/// A sink, and the counter of what is given back.
#[derive(Drop)]
pub(crate) struct Counted<'h, K> {
    pub(crate) sink: K,
    pub(crate) given: &'h AmountCounter,
}

impl<K: Sink> Sink for Counted<'_, K> {
    ghost got = { λ c. K.got c.sink };

    fn put(&mut self, rec: Rec) -> Result<(), AllocError> {
        let bytes = rec.bytes.len();
        self.sink.put(rec)?;
        self.given.add(bytes);
        Ok(())
    }
}
