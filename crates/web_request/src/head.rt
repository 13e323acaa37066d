//! The head of a request.
ghost use Rattle.std.specs.Prelude.{◌≡◌};

use octets::Bytes;
use std::marker::Model;

/// The head of a request (RFC 9112, section 2.1): its method, its target as it was written, and its fields in order.
#[derive(Drop)]
pub struct Head {
    /// The method, as `GET`.
    pub method: Bytes,
    /// The target, as it was written.
    pub target: Bytes,
    /// The fields, in their order.
    pub fields: Fields,
}

/// A field: its name, and its value without the spaces and tabs around it (RFC 9110, section 5).
#[derive(Drop)]
pub struct Field {
    /// The name, in which case doesn't count.
    pub name: Bytes,
    /// The value.
    pub value: Bytes,
}

/// Fields in their order, which contracts see as a list.
#[derive(Drop)]
pub struct Fields {
    fields: Vec<Field>,
}

impl Model for Fields {
    ghost use Rattle.std.specs.Prelude.{List};
    ghost use Rattle.web_request.specs.declared.head.Field.{Field};

    ghost Value = { List Field };

    ghost view = { λ f. f.fields.items };
}

impl Fields {
    /// The fields of a vector, which isn't copied.
    pub fn from_vec(fields: Vec<Field>) -> Self
        ensures { result ≡ fields.items }
    {
        Fields { fields }
    }

    /// The fields as a slice.
    pub fn as_slice(&self) -> &[Field]
        ensures { result.now ≡ self.now }
    {
        self.fields.as_slice()
    }
}
