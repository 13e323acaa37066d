//! A script, and what is wanted of it.
use gate_tasks::escape;
use octets::fakes::counted_bytes;
use std::alloc::{AllocError, Global};

/// How a run ends that comes to the end of its script.
const END: &str = "end";

/// The lines of a script, and the answers and the end that are wanted.
#[derive(Drop)]
pub struct Script {
    /// What it shows.
    pub name: String,
    /// Its lines, their marks written out.
    pub lines: Vec<u8>,
    /// The answer that is wanted of each line that isn't empty, as far as the one at which the run ends.
    pub wanted: Vec<String>,
    /// How the run is to end.
    pub end: String,
    /// Whether an answer was named for the line that came last.
    is_named: bool,
    /// Whether the run is to be over.
    is_over: bool,
}

impl Script {
    /// A script without lines.
    pub fn new(alloc: Global, name: &str) -> Result<Script, AllocError> {
        Ok(Script {
            name: String::from_str(alloc, name)?,
            lines: Vec::new(alloc),
            wanted: Vec::new(alloc),
            end: String::from_str(alloc, END)?,
            is_named: false,
            is_over: false,
        })
    }

    /// Adds a line of a file: a line of the script, the answer that is wanted of the one before (`> `), or how the run
    /// ends at the one before (`! `).
    pub fn add(&mut self, alloc: Global, line: &str, image: &[u8]) -> Result<(), AllocError> {
        if let Some(answer) = line.strip_prefix("> ") {
            self.name_answer(alloc, answer)
        } else if let Some(end) = line.strip_prefix("! ") {
            self.name_end(alloc, end)
        } else {
            self.add_line(alloc, line, image)
        }
    }

    /// This answer is wanted of the line that came last.
    fn name_answer(&mut self, alloc: Global, answer: &str) -> Result<(), AllocError> {
        let _default = self.wanted.pop();
        self.wanted.push(String::from_str(alloc, answer)?)?;
        self.is_named = true;
        Ok(())
    }

    /// The run is to end so at the line that came last, which is answered only if an answer was named.
    fn name_end(&mut self, alloc: Global, end: &str) -> Result<(), AllocError> {
        if !self.is_named {
            let _default = self.wanted.pop();
        }
        self.end = String::from_str(alloc, end)?;
        self.is_over = true;
        Ok(())
    }

    /// Adds a line of the script, its marks written out. `ok` is wanted of it, if it isn't empty, until another answer is
    /// named.
    fn add_line(&mut self, alloc: Global, line: &str, image: &[u8]) -> Result<(), AllocError> {
        let before = self.lines.len();
        let mut is_mark = false;
        for part in line.split("#{") {
            match (is_mark, part.split_once('}')) {
                (true, Some((mark, text))) => {
                    write_out(alloc, mark, image, &mut self.lines)?;
                    self.lines.extend_from_slice(text.as_bytes())?;
                }
                _ => self.lines.extend_from_slice(part.as_bytes())?,
            }
            is_mark = true;
        }
        if before < self.lines.len() && !self.is_over {
            self.wanted.push(String::from_str(alloc, "ok")?)?;
            self.is_named = false;
        }
        self.lines.push(b'\n')?;
        Ok(())
    }
}

/// Writes what a mark stands for: the last image, so many copies of a text, or so many bytes, byte i being i modulo 251.
fn write_out(
    alloc: Global,
    mark: &str,
    image: &[u8],
    lines: &mut Vec<u8>,
) -> Result<(), AllocError> {
    if mark == "image" {
        return lines.extend_from_slice(image);
    }
    let (count, text) = mark.split_once('*').unwrap_or((mark, ""));
    let count = count.parse::<usize>().unwrap_or(0);
    if text.is_empty() {
        return escape(&counted_bytes(alloc, count)?, lines);
    }
    for _ in 0..count {
        lines.extend_from_slice(text.as_bytes())?;
    }
    Ok(())
}
