//! The compact text of a value, written some values at a time.
ghost use Rattle.std.specs.Prelude.{◌≡◌, ◌+◌, ◌<◌, ◌≤◌, [], ◌∷◌, ◌++◌, length, max, false, IsTrue, IfOk, OnOk};
ghost use Rattle.serde_json.specs.Data.{Data};
ghost use Rattle.serde_json.specs.View.{view};
ghost use Rattle.json_tree.specs.Parts.{part_count};
ghost use Rattle.json_tree.specs.Writers.{IsWriting, IsWrittenOn, HasLessToWrite, IsWithinBytes, EndsBehindBytes, BeginsValue, parts_to_write};

use crate::freed::join_freed;
use crate::rest::{Reached, Rest};
use crate::text::{put_number, put_string, put_word};
use serde_json::Value;
use std::alloc::{AllocError, Global};
use std::collections::VecDeque;

/// How many parts of a value are written in a step, at most.
const STEP_PARTS: usize = 1_024;

/// Behind how many bytes a step ends.
const STEP_BYTES: usize = 65_536;

/// The compact text of a value as far as it is written, and the rest of the value.
#[derive(Drop)]
pub struct TextWriter {
    /// What is written.
    out: Vec<u8>,
    /// The value that comes next, if it is not to be taken from what is open.
    next: Option<Value>,
    /// What is left of the arrays and objects that are open, the innermost last.
    rests: Vec<Rest>,
    /// How many levels of arrays and objects were opened.
    levels: usize,
    /// Whether a number that is not whole was met.
    fractional: bool,
}

/// The compact text of a value.
#[derive(Drop)]
pub struct Written {
    /// `serde_json`'s compact text, in which a number that is not whole leaves nothing.
    pub text: Vec<u8>,
    /// How many levels of arrays and objects the value has.
    pub levels: usize,
    /// Whether a number that is not whole is in it.
    pub fractional: bool,
}

/// How a writer goes on.
#[derive(Drop)]
pub enum Writing {
    /// It has more to write.
    Going(TextWriter),
    /// All is written.
    Done(Written),
}

impl TextWriter {
    /// Before the first byte of that value's text.
    pub fn new(alloc: Global, value: Value) -> TextWriter
        ensures writing { IsWriting (view value) result }
        ensures parts { parts_to_write result ≡ part_count (view value) }
    {
        TextWriter {
            out: Vec::new(alloc),
            next: Some(value),
            rests: Vec::new(alloc),
            levels: 0,
            fractional: false,
        }
    }

    /// With the next parts written, and let go of: 1,024 of them at most, which are as many values at most, and no more once
    /// 65,536 bytes are written. The keys of an object are written in order.
    ///
    /// # Errors
    /// `AllocError` where memory is refused. Then all is let go of at once.
    pub fn step(self, alloc: Global) -> Result<Writing, AllocError>
        ensures written { IfOk result (λ writing. (d : Data) → IsWriting d self
            → IsWrittenOn d writing) }
        ensures less { IfOk result (λ writing. HasLessToWrite self writing) }
        ensures bytes { IfOk result (λ writing. EndsBehindBytes self writing) }
    {
        let mut writer = self;
        writer.write_some(alloc)?;
        if !writer.is_over() {
            return Ok(Writing::Going(writer));
        }
        let TextWriter {
            out,
            levels,
            fractional,
            ..
        } = writer;
        Ok(Writing::Done(Written {
            text: out,
            levels,
            fractional,
        }))
    }

    /// Whether all is written.
    fn is_over(&self) -> bool
        ensures none { IsTrue result → parts_to_write self.now ≡ 0 }
        ensures some { result ≡ false → 0 < parts_to_write self.now }
    {
        self.next.is_none() && self.rests.is_empty()
    }

    /// Writes the next parts, as many as a step may.
    fn write_some(&mut self, alloc: Global) -> Result<(), AllocError>
        ensures on { OnOk result ((d : Data) → IsWriting d self.old → IsWriting d self.new) }
        ensures fewer { OnOk result (0 < parts_to_write self.old
            → parts_to_write self.new < parts_to_write self.old) }
        ensures few { OnOk result (parts_to_write self.old ≤ parts_to_write self.new + 1024) }
        ensures bytes { OnOk result (IsWithinBytes self.old (parts_to_write self.new)) }
        ensures none_more { OnOk result (parts_to_write self.new ≤ parts_to_write self.old) }
    {
        join_freed(alloc);
        let full = self.out.len().saturating_add(STEP_BYTES);
        for i in 0..STEP_PARTS {
            if self.is_over() {
                return Ok(());
            }
            self.write_part(alloc)?;
            if self.out.len() >= full {
                return Ok(());
            }
        }
        Ok(())
    }

    /// Writes the next part.
    fn write_part(&mut self, alloc: Global) -> Result<(), AllocError>
        requires { 0 < parts_to_write self.old }
        ensures on { OnOk result ((d : Data) → IsWriting d self.old → IsWriting d self.new) }
        ensures one { OnOk result (parts_to_write self.new + 1 ≡ parts_to_write self.old) }
    {
        if let Some(value) = self.next.take() {
            return self.begin(alloc, value);
        }
        let Some(rest) = self.rests.pop() else {
            return Ok(());
        };
        match rest.reach(alloc, &mut self.out)? {
            Reached::End => Ok(()),
            Reached::Value(value, left) => {
                self.rests.push_reserved(left);
                self.begin(alloc, value)
            }
        }
    }

    /// Writes a value where it is one token, and else opens it.
    fn begin(&mut self, alloc: Global, value: Value) -> Result<(), AllocError>
        ensures { OnOk result (BeginsValue self.old value self.new) }
    {
        match value {
            Value::Array(items) => self.open(b'[', Rest::Items(VecDeque::from_vec(items), false)),
            Value::Object(members) => self.open(b'{', Rest::Members(members, false)),
            Value::String(text) => put_string(alloc, &mut self.out, text.as_str()),
            Value::Number(number) => {
                self.fractional = self.fractional || number.is_f64();
                put_number(&mut self.out, &number)
            }
            Value::Bool(true) => put_word(&mut self.out, b"true"),
            Value::Bool(false) => put_word(&mut self.out, b"false"),
            Value::Null => put_word(&mut self.out, b"null"),
        }
    }

    /// Opens an array or object by its bracket.
    fn open(&mut self, bracket: u8, rest: Rest) -> Result<(), AllocError>
        ensures out { OnOk result (self.new.out.items ≡ self.old.out.items ++ bracket ∷ []) }
        ensures rests { OnOk result (self.new.rests.items ≡ self.old.rests.items ++ rest ∷ []) }
        ensures levels { OnOk result
            (self.new.levels ≡ max self.old.levels (length self.old.rests.items + 1)) }
        ensures fractional { self.new.fractional ≡ self.old.fractional }
        ensures next { self.new.next ≡ self.old.next }
    {
        self.out.push(bracket)?;
        self.rests.push(rest)?;
        self.levels = self.levels.max(self.rests.len());
        Ok(())
    }
}
