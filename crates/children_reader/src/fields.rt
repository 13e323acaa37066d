//! What is kept of a child in JSON: its fields that have a meaning, and no others.
ghost use Rattle.std.specs.Prelude.{◌≡◌};
ghost use Rattle.serde_json.specs.Data.{Data, Members, no_members, put};
ghost use Rattle.children_reader.specs.Kept.{IsField, AreChildFields};

use json_spelling::Spelled;

/// The value of a field.
#[derive(Drop)]
pub(crate) enum Field {
    /// Null.
    Null,
    /// A text.
    Text(String),
    /// An object, spelled.
    Object(Spelled),
    /// A truth value, a number or an array.
    Other,
}

/// The fields of a child that have a meaning, each as far as it is there.
#[derive(Drop)]
pub(crate) struct Fields {
    /// The cap that reads the child.
    pub(crate) ro_uri: Option<Field>,
    /// The cap that could change the child.
    pub(crate) rw_uri: Option<Field>,
    /// The metadata.
    pub(crate) metadata: Option<Field>,
}

impl Fields {
    /// Those of an object without members.
    pub(crate) fn none() -> Self
        ensures { AreChildFields result no_members }
    {
        Fields {
            ro_uri: None,
            rw_uri: None,
            metadata: None,
        }
    }

    /// Those of the object with one more member, in place of one of that name. A name without a meaning is passed by.
    pub(crate) fn put(&mut self, name: &str, field: Field)
        ensures { (d : Data) (ms : Members) → IsField field d → AreChildFields self.old ms
            → AreChildFields self.new (put name.now d ms) }
    {
        if name == "ro_uri" {
            self.ro_uri = Some(field);
        } else if name == "rw_uri" {
            self.rw_uri = Some(field);
        } else if name == "metadata" {
            self.metadata = Some(field);
        }
    }
}
