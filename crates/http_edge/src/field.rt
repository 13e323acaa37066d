//! The fields of a request's head.
ghost use Rattle.std.specs.Prelude.{◌≡◌, IfOk};

use octets::Bytes;
use std::alloc::{AllocError, Global};
use std::marker::Model;

/// A field: its name, and its value without the spaces and tabs around it (RFC 9110, section 5).
#[derive(Drop)]
pub struct Field {
    pub name: Bytes,
    pub value: Bytes,
}

/// Fields in their order, which contracts see as a list.
#[derive(Drop)]
pub struct Fields {
    fields: Vec<Field>,
}

impl Model for Fields {
    ghost use Rattle.std.specs.Prelude.{List};
    ghost use Rattle.http_edge.specs.declared.field.Field.{Field};

    ghost Value = { List Field };

    ghost view = { λ f. f.fields.items };
}

impl Field {
    /// A field of copies of a name and a value.
    pub fn from_slices(alloc: Global, name: &[u8], value: &[u8]) -> Result<Self, AllocError>
        ensures name { IfOk result (λ field. field.name ≡ name.now) }
        ensures value { IfOk result (λ field. field.value ≡ value.now) }
    {
        let name = Bytes::from_slice(alloc, name)?;
        let value = Bytes::from_slice(alloc, value)?;
        Ok(Field { name, value })
    }
}

impl Fields {
    /// The fields of a vector, which isn't copied.
    pub fn from_vec(fields: Vec<Field>) -> Self
        ensures { result ≡ fields.items }
    {
        Fields { fields }
    }

    /// The fields as a slice.
    pub fn as_slice(&self) -> &[Field]
        ensures { result.now ≡ self.now }
    {
        self.fields.as_slice()
    }

    /// The vector that holds the fields, which isn't copied.
    pub fn into_vec(self) -> Vec<Field>
        ensures { result.items ≡ self }
    {
        let Fields { fields: vector } = self;
        vector
    }
}
