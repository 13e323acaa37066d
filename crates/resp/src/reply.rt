//! Replies.
ghost use Rattle.std.specs.Prelude.{◌≡◌};

use octets::Bytes;
use std::marker::Model;

/// What is no array.
#[derive(Drop)]
pub enum Item {
    /// A simple string.
    Text(Bytes),
    /// An error: its kind in upper case, a space, and what it says, as a rule.
    Error(Bytes),
    /// An integer.
    Integer(i64),
    /// A bulk string.
    Bulk(Bytes),
    /// The null bulk string, which says that there is nothing.
    Null,
}

/// An element of an array that is a reply.
#[derive(Drop)]
pub enum Element {
    /// What is no array.
    One(Item),
    /// An array with no arrays in it.
    Several(Items),
}

/// A reply.
#[derive(Drop)]
pub enum Reply {
    /// What is no array.
    One(Item),
    /// An array, with arrays in it at most once.
    Several(Elements),
}

/// Items, which contracts see as a list.
#[derive(Drop)]
pub struct Items {
    all: Vec<Item>,
}

impl Model for Items {
    ghost use Rattle.std.specs.Prelude.{List};
    ghost use Rattle.resp.specs.declared.reply.Item.{Item};

    ghost Value = { List Item };

    ghost view = { λ items. items.all.items };
}

impl Items {
    /// These items.
    pub fn from_vec(all: Vec<Item>) -> Self
        ensures { result ≡ all.items }
    {
        Items { all }
    }

    /// The items as a slice.
    pub fn as_slice(&self) -> &[Item]
        ensures { result.now ≡ self.now }
    {
        self.all.as_slice()
    }

    /// The vector that holds them.
    pub fn into_vec(self) -> Vec<Item>
        ensures { result.items ≡ self }
    {
        let Items { all: vector } = self;
        vector
    }
}

/// Elements, which contracts see as a list.
#[derive(Drop)]
pub struct Elements {
    all: Vec<Element>,
}

impl Model for Elements {
    ghost use Rattle.std.specs.Prelude.{List};
    ghost use Rattle.resp.specs.declared.reply.Element.{Element};

    ghost Value = { List Element };

    ghost view = { λ elements. elements.all.items };
}

impl Elements {
    /// These elements.
    pub fn from_vec(all: Vec<Element>) -> Self
        ensures { result ≡ all.items }
    {
        Elements { all }
    }

    /// The elements as a slice.
    pub fn as_slice(&self) -> &[Element]
        ensures { result.now ≡ self.now }
    {
        self.all.as_slice()
    }

    /// The vector that holds them.
    pub fn into_vec(self) -> Vec<Element>
        ensures { result.items ≡ self }
    {
        let Elements { all: vector } = self;
        vector
    }
}
