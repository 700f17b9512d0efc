//! The parts of a message as they stand in a frame.
ghost use Rattle.std.specs.Prelude.{◌≡◌, unwrap_or, option_and_then};
ghost use Rattle.rt_json.specs.Trees.{text_of};
ghost use Rattle.rt_phx.specs.Frame.{ref_of};
ghost use Rattle.rt_phx.specs.Parts as spec;

use crate::message::Message;
use rt_json::{Json, Member};
use rt_value::{List, Text};
use std::alloc::Global;

#[derive(Drop)]
pub struct Parts {
    pub topic: Option<Json>,
    pub event: Option<Json>,
    pub payload: Option<Json>,
    pub reference: Option<Json>,
    pub join_ref: Option<Json>,
}

impl Parts {
    /// The member takes the place of an earlier one of its name.
    fn with(self, member: Member) -> Parts
        ensures { result ≡ spec.parts_with self member }
    {
        let Member { name, value } = member;
        match name.get() {
            "topic" => Parts {
                topic: later(self.topic, value),
                ..self
            },
            "event" => Parts {
                event: later(self.event, value),
                ..self
            },
            "payload" => Parts {
                payload: later(self.payload, value),
                ..self
            },
            "ref" => Parts {
                reference: later(self.reference, value),
                ..self
            },
            "join_ref" => Parts {
                join_ref: later(self.join_ref, value),
                ..self
            },
            _ => self,
        }
    }

    /// The members of an object, of each name the last.
    pub fn among(members: Vec<Member>) -> Parts
        ensures { result ≡ spec.parts_among members.items }
    {
        let mut parts = Parts {
            topic: None,
            event: None,
            payload: None,
            reference: None,
            join_ref: None,
        };
        for member in members {
            parts = parts.with(member);
        }
        parts
    }

    /// The items of a list of exactly five.
    pub fn in_five(items: Vec<Json>) -> Option<Parts>
        ensures { result ≡ spec.parts_in_five items.items }
    {
        let mut items = items;
        if items.len() != 5 {
            return None;
        }
        let payload = items.pop();
        let event = items.pop();
        let topic = items.pop();
        let reference = items.pop();
        let join_ref = items.pop();
        Some(Parts {
            topic,
            event,
            payload,
            reference,
            join_ref,
        })
    }

    /// The message, where each part has its form. An absent payload is `{}`, an absent ref or
    /// join_ref null.
    pub fn message(self, alloc: Global) -> Option<Message>
        ensures { result ≡ spec.message_of_parts self }
    {
        let Parts {
            topic,
            event,
            payload,
            reference,
            join_ref,
        } = self;
        let texts = text_in(topic).zip(text_in(event));
        let refs = ref_in(join_ref).zip(ref_in(reference));
        let payload = payload.unwrap_or(Json::Object(List::new(Vec::new(alloc))));
        let ((topic, event), (join_ref, reference)) = texts.zip(refs)?;
        Some(Message {
            join_ref,
            reference,
            topic,
            event,
            payload,
        })
    }
}

fn text_in(tree: Option<Json>) -> Option<Text>
    ensures { result ≡ option_and_then text_of tree }
{
    match tree {
        Some(Json::Text(text)) => Some(text),
        _ => None,
    }
}

/// A ref is null, a text or a number.
fn ref_in(tree: Option<Json>) -> Option<Json>
    ensures { result ≡ ref_of (unwrap_or tree Json.Null) }
{
    match tree.unwrap_or(Json::Null) {
        Json::Null => Some(Json::Null),
        Json::Text(text) => Some(Json::Text(text)),
        Json::Num(digits) => Some(Json::Num(digits)),
        _ => None,
    }
}

/// The later of two values under one name.
fn later(_former: Option<Json>, value: Json) -> Option<Json>
    ensures { result ≡ Some value }
{
    Some(value)
}
