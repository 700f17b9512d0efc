ghost use Rattle.std.specs.Prelude.{◌≡◌, IfOk};

use crate::message::Message;
use std::alloc::{AllocError, Global};

impl Message {
    /// An equal message. Fails for want of memory alone.
    pub fn copy(&self, alloc: Global) -> Result<Message, AllocError>
        ensures { IfOk result (λ copy. copy ≡ self.now) }
    {
        Ok(Message {
            topic: self.topic.copy(alloc)?,
            event: self.event.copy(alloc)?,
            payload: self.payload.copy(alloc)?,
            join_ref: self.join_ref.copy(alloc)?,
            reference: self.reference.copy(alloc)?,
        })
    }
}
