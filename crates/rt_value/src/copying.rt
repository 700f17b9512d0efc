ghost use Rattle.std.specs.Prelude.{◌≡◌, IfOk};

use crate::{Claim, Claims, Key, List, Row, Text, Value};
use std::alloc::{AllocError, Global};

impl Value {
    /// An equal value. Fails for want of memory alone.
    pub fn copy(&self, alloc: Global) -> Result<Self, AllocError>
        ensures { IfOk result (λ v. v ≡ self.now) }
    {
        Ok(match self {
            Value::Null => Value::Null,
            Value::Int(n) => Value::Int(*n),
            Value::Text(text) => Value::Text(text.copy(alloc)?),
            Value::Bool(b) => Value::Bool(*b),
            Value::Uuid(n) => Value::Uuid(*n),
            Value::Moment(n) => Value::Moment(*n),
            Value::Opaque => Value::Opaque,
        })
    }
}

/// Equal values.
fn copied_values(alloc: Global, values: &List<Value>) -> Result<List<Value>, AllocError>
    ensures { IfOk result (λ l. l ≡ values.now) }
{
    values.copy_by(alloc, |value| value.copy(alloc))
}

impl Key {
    /// An equal key. Fails for want of memory alone.
    pub fn copy(&self, alloc: Global) -> Result<Self, AllocError>
        ensures { IfOk result (λ k. k ≡ self.now) }
    {
        Ok(Key {
            values: copied_values(alloc, &self.values)?,
        })
    }
}

impl Row {
    /// An equal row. Fails for want of memory alone.
    pub fn copy(&self, alloc: Global) -> Result<Self, AllocError>
        ensures { IfOk result (λ r. r ≡ self.now) }
    {
        Ok(Row {
            key: self.key.copy(alloc)?,
            values: copied_values(alloc, &self.values)?,
        })
    }
}

/// An equal text, where there is one.
fn copied_text(alloc: Global, text: &Option<Text>) -> Result<Option<Text>, AllocError>
    ensures { IfOk result (λ t. t ≡ text.now) }
{
    match text {
        None => Ok(None),
        Some(text) => Ok(Some(text.copy(alloc)?)),
    }
}

impl Claim {
    /// An equal claim. Fails for want of memory alone.
    pub fn copy(&self, alloc: Global) -> Result<Self, AllocError>
        ensures { IfOk result (λ c. c ≡ self.now) }
    {
        Ok(Claim {
            name: self.name.copy(alloc)?,
            value: copied_text(alloc, &self.value)?,
        })
    }
}

impl Claims {
    /// Equal claims. Fails for want of memory alone.
    pub fn copy(&self, alloc: Global) -> Result<Self, AllocError>
        ensures { IfOk result (λ c. c ≡ self.now) }
    {
        Ok(Claims {
            role: self.role.copy(alloc)?,
            sub: self.sub,
            exp: self.exp,
            members: self.members.copy_by(alloc, |claim| claim.copy(alloc))?,
        })
    }
}
