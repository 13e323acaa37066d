//! Runs of scripts, one after the other.
use crate::fault::RunFault;
use crate::script::Script;
use gate_tasks::{ScriptFault, run_script};
use hex::encode;
use sha2::{Digest, Sha256};
use std::alloc::{AllocError, Global};
use std::fs;
use std::io::{BufRead, BufReader};
use std::rt::Files;

/// An answer of more bytes is told by its length and its digest.
const LONGEST: usize = 4_000;

/// Scripts that were run, and the one that comes.
#[derive(Drop)]
pub struct Runs {
    /// The script whose lines come, once a first one has begun.
    script: Option<Script>,
    /// The last image that was answered, as text.
    image: Vec<u8>,
    /// How many scripts were run.
    scripts: u64,
    /// How many answers they were given.
    answers: u64,
}

impl Runs {
    /// Nothing was run yet.
    pub fn new(alloc: Global) -> Runs {
        Runs {
            script: None,
            image: Vec::new(alloc),
            scripts: 0,
            answers: 0,
        }
    }

    /// Runs the scripts of a file, each after a line that begins with `== ` and has its name, and tells what isn't as it is
    /// wanted. Lines before the first are skipped.
    pub fn run_file<R: Files + Print + AllocGlobal>(
        &mut self,
        rt: &R,
        path: &str,
    ) -> Result<(), RunFault> {
        let alloc = rt.alloc();
        let Ok(file) = fs::open(rt, path) else {
            return Err(RunFault::NotRead);
        };
        let Ok(reader) = BufReader::new(alloc, file) else {
            return Err(RunFault::NotRead);
        };
        for line in reader.lines(alloc) {
            let Ok(line) = line else {
                return Err(RunFault::NotRead);
            };
            self.bring(rt, &line)?;
        }
        self.finish(rt)
    }

    /// Says how many scripts were run, with how many answers.
    pub fn tell<R: Print>(&self, rt: &R) -> Result<(), RunFault> {
        println!(rt; "scripts: {}, answers: {}", self.scripts, self.answers)?;
        Ok(())
    }

    /// A line of a file comes.
    fn bring<R: Print + AllocGlobal>(&mut self, rt: &R, line: &str) -> Result<(), RunFault> {
        if let Some(name) = line.strip_prefix("== ") {
            self.finish(rt)?;
            self.script = Some(Script::new(rt.alloc(), name)?);
        } else if let Some(script) = &mut self.script {
            script.add(rt.alloc(), line, &self.image)?;
        }
        Ok(())
    }

    /// Runs the script that has come, if there is one, and tells what isn't as it is wanted.
    fn finish<R: Print + AllocGlobal>(&mut self, rt: &R) -> Result<(), RunFault> {
        let Some(script) = self.script.take() else {
            return Ok(());
        };
        let mut answers = Vec::new(rt.alloc());
        let outcome = run(rt.alloc(), &script.lines, &mut answers);
        let Ok(text) = str::from_utf8(&answers) else {
            return Err(RunFault::NoText);
        };
        let given = self.compare(rt, &script, text)?;
        self.scripts = self.scripts.saturating_add(1);
        self.answers = self.answers.saturating_add(given as u64);
        compare_ends(rt, &script, outcome)
    }

    /// Tells which answers of a script aren't as they are wanted, and keeps the last image. How many there were.
    fn compare<R: Print + AllocGlobal>(
        &mut self,
        rt: &R,
        script: &Script,
        text: &str,
    ) -> Result<usize, RunFault> {
        let mut given = 0usize;
        for answer in text.lines() {
            if let Some(image) = answer.strip_prefix("image ") {
                self.image.clear();
                self.image.extend_from_slice(image.as_bytes())?;
            }
            let answer = told(rt.alloc(), answer)?;
            let wanted = script.wanted.as_slice().get(given);
            given = given.saturating_add(1);
            match wanted {
                Some(one) if *one == answer => {}
                Some(one) => {
                    println!(rt;
                        "{}: answer {given} is {answer}, and not {one}",
                        script.name
                    )?;
                }
                None => println!(rt; "{}: answer {given} is {answer}, and none", script.name)?,
            }
        }
        let missing = script.wanted.len().saturating_sub(given);
        if missing > 0 {
            println!(rt; "{}: {missing} answers are missing", script.name)?;
        }
        Ok(given)
    }
}

/// Runs a script.
fn run(alloc: Global, script: &[u8], answers: &mut Vec<u8>) -> Result<(), ScriptFault> {
    let mut reader = script;
    run_script(alloc, &mut reader, answers)
}

/// Tells how a run ended, if that isn't as it is wanted.
fn compare_ends<R: Print + AllocGlobal>(
    rt: &R,
    script: &Script,
    outcome: Result<(), ScriptFault>,
) -> Result<(), RunFault> {
    let end = match outcome {
        Ok(()) => String::from_str(rt.alloc(), "end")?,
        Err(fault) => format!(in rt.alloc(); "{fault}")?,
    };
    if end != script.end {
        println!(rt; "{}: the end is {end}, and not {}", script.name, script.end)?;
    }
    Ok(())
}

/// An answer, or its length and digest.
fn told(alloc: Global, answer: &str) -> Result<String, AllocError> {
    if answer.len() <= LONGEST {
        return String::from_str(alloc, answer);
    }
    let digest = encode(alloc, &Sha256::digest(answer.as_bytes()))?;
    format!(in alloc; "{} bytes of SHA-256 {digest}", answer.len())
}
