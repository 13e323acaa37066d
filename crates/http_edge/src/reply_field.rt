//! The fields of a reply.
ghost use Rattle.std.specs.Prelude.{◌≡◌, [], ◌∷◌, ◌++◌, All, OnOk, OnErr};
ghost use Rattle.http_edge.specs.Plain.{IsPlain};

use octets::Bytes;
use std::alloc::{AllocError, Global};
use std::marker::Model;

/// A field of a reply, whose name is constant. It is neither Content-Length nor Connection, which `render` writes, and
/// holds no CR and no LF.
#[derive(Drop)]
pub struct ReplyField {
    name: &'static [u8],
    value: FieldValue,
}

/// A value that is constant, or was made for its reply.
#[derive(Drop)]
pub enum FieldValue {
    Constant(&'static [u8]),
    Made(Bytes),
}

impl Model for ReplyField {
    ghost use Rattle.http_edge.specs.declared.field.Field.{Field};
    ghost use Rattle.http_edge.specs.Value.{field_value};
    ghost use Rattle.http_edge.specs.Plain.{IsPlain};

    ghost Value = { Field };

    ghost view = { λ f. record { name = f.name.now; value = field_value f.value } };

    ghost invariant = { λ f. IsPlain (record { name = f.name.now; value = field_value f.value }) };
}

/// The fields of a reply in their order, which contracts see as a list.
#[derive(Drop)]
pub struct ReplyFields {
    fields: Vec<ReplyField>,
}

impl Model for ReplyFields {
    ghost use Rattle.std.specs.Prelude.{List, All};
    ghost use Rattle.http_edge.specs.declared.field.Field.{Field};
    ghost use Rattle.http_edge.specs.Plain.{IsPlain};

    ghost Value = { List Field };

    ghost view = { λ f. f.fields.items };

    ghost invariant = { λ f. All IsPlain f.fields.items };
}

impl ReplyField {
    /// A field with a constant value. Takes no memory.
    pub fn constant(name: &'static [u8], value: &'static [u8]) -> Self
        requires plain { IsPlain (record { name = name.now; value = value.now }) }
        ensures { result ≡ record { name = name.now; value = value.now } }
    {
        ReplyField {
            name,
            value: FieldValue::Constant(value),
        }
    }

    /// A field with a value that was made, which isn't copied.
    pub fn made(name: &'static [u8], value: Bytes) -> Self
        requires plain { IsPlain (record { name = name.now; value = value }) }
        ensures { result ≡ record { name = name.now; value = value } }
    {
        ReplyField {
            name,
            value: FieldValue::Made(value),
        }
    }

    /// The name.
    pub(crate) fn name(&self) -> &[u8]
        ensures name { result.now ≡ self.now.name }
        ensures plain { IsPlain self.now }
    {
        self.name
    }

    /// The value.
    pub(crate) fn value(&self) -> &[u8]
        ensures { result.now ≡ self.now.value }
    {
        match &self.value {
            FieldValue::Constant(value) => *value,
            FieldValue::Made(value) => value.as_slice(),
        }
    }
}

impl ReplyFields {
    /// No fields. Takes no memory.
    pub fn new(alloc: Global) -> Self
        ensures { result ≡ [] }
    {
        ReplyFields {
            fields: Vec::new(alloc),
        }
    }

    /// Puts a field after the others. Without memory for it the fields stay as they were.
    pub fn push(&mut self, field: ReplyField) -> Result<(), AllocError>
        ensures pushed { OnOk result (self.new ≡ self.old ++ field ∷ []) }
        ensures refused { OnErr result (self.new ≡ self.old) }
    {
        let _name = field.name();
        self.fields.push(field)?;
        Ok(())
    }

    /// The fields as a slice. None is a Content-Length or Connection field, and none holds CR or LF.
    pub(crate) fn as_slice(&self) -> &[ReplyField]
        ensures value { result.now ≡ self.now }
        ensures plain { All IsPlain self.now }
    {
        self.fields.as_slice()
    }
}
