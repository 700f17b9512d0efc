ghost use Rattle.std.specs.Prelude.{◌≡◌, IfOk, IsUtf8};

use crate::message::Message;
use rt_json::Json;
use rt_value::{Shared, Text};
use std::alloc::{AllocError, Global};
use std::marker::Model;
use std::sync::Arc;

/// What a message says, whoever is told it.
#[derive(Drop)]
struct Body {
    topic: Text,
    event: Text,
    payload: Json,
}

/// A message that is told to many: each has refs of its own, and topic, event and payload stand in
/// memory once. Contracts see the message.
#[derive(Drop)]
pub struct Said {
    join_ref: Json,
    reference: Json,
    body: Shared<Body>,
}

impl Model for Said {
    ghost use Rattle.rt_phx.specs.declared.message.Message.{Message};
    ghost use Rattle.rt_phx.specs.contracts.message.Message as whole;
    ghost use Rattle.rt_phx.specs.Frame.{message};

    ghost Value = { Message };

    ghost coded = { whole.the_row.coded };

    ghost view = { λ s.
        message s.join_ref s.reference s.body.topic s.body.event s.body.payload };
}

impl Said {
    /// The message, of which nothing is copied. Fails for want of memory alone.
    pub fn new(alloc: Global, message: Message) -> Result<Said, AllocError>
        ensures { IfOk result (λ said. said ≡ message) }
    {
        let Message {
            join_ref,
            reference,
            topic,
            event,
            payload,
        } = message;
        let body = Arc::new(
            alloc,
            Body {
                topic,
                event,
                payload,
            },
        )?;
        Ok(Said {
            join_ref,
            reference,
            body: Shared::new(body),
        })
    }

    /// The same message under other refs: these are copied, and all else is shared. Fails for want
    /// of memory alone.
    pub fn on(&self, alloc: Global, join_ref: &Json, reference: &Json) -> Result<Said, AllocError>
        ensures { IfOk result (λ said. said
            ≡ record self.now { join_ref = join_ref.now; reference = reference.now }) }
    {
        Ok(Said {
            join_ref: join_ref.copy(alloc)?,
            reference: reference.copy(alloc)?,
            body: self.body.copy()?,
        })
    }

    /// An equal message: its refs are copied, and all else is shared. Fails for want of memory
    /// alone.
    pub fn copy(&self, alloc: Global) -> Result<Said, AllocError>
        ensures { IfOk result (λ said. said ≡ self.now) }
    {
        self.on(alloc, &self.join_ref, &self.reference)
    }

    /// Lends the ref of the join.
    pub fn join_ref(&self) -> &Json
        ensures { result.now ≡ self.now.join_ref }
    {
        &self.join_ref
    }

    /// Lends the ref.
    pub fn reference(&self) -> &Json
        ensures { result.now ≡ self.now.reference }
    {
        &self.reference
    }

    /// Lends the topic.
    pub fn topic(&self) -> &str
        ensures { result.now ≡ self.now.topic }
    {
        self.body.get().topic.get()
    }

    /// Lends the event.
    pub fn event(&self) -> &str
        ensures { result.now ≡ self.now.event }
    {
        self.body.get().event.get()
    }

    /// Lends the payload.
    pub fn payload(&self) -> &Json
        ensures { result.now ≡ self.now.payload }
    {
        &self.body.get().payload
    }
}
