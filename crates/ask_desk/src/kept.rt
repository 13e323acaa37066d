//! The replies that are kept.
ghost use Rattle.std.specs.Prelude.{◌≡◌, ◌≢◌, ℕ, [], ◌∷◌, ◌++◌, OnOk, OnErr};
ghost use Rattle.std.specs.Option.{option_copied};
ghost use Rattle.ask_desk.specs.Kept.{kept_for, reply_of_ticket};

use resp::Reply;
use std::alloc::{AllocError, Global};
use std::collections::BTreeMap;
use std::marker::Model;

/// A reply that came, and the ticket of its ask.
#[derive(Drop)]
pub(crate) struct Answer {
    /// The ticket.
    pub(crate) ticket: u64,
    /// The reply.
    pub(crate) reply: Reply,
}

/// Answers of one owner, which contracts see as a list.
#[derive(Drop)]
pub(crate) struct Answers {
    all: Vec<Answer>,
}

impl Model for Answers {
    ghost use Rattle.std.specs.Prelude.{List};
    ghost use Rattle.ask_desk.specs.declared.kept.Answer.{Answer};

    ghost Value = { List Answer };

    ghost view = { λ answers. answers.all.items };
}

impl Answers {
    /// None. Takes no memory.
    fn new(alloc: Global) -> Self
        ensures { result ≡ [] }
    {
        Answers {
            all: Vec::new(alloc),
        }
    }

    /// Puts one behind the others.
    fn push(&mut self, answer: Answer) -> Result<(), AllocError>
        ensures ok { OnOk result (self.new ≡ self.old ++ answer ∷ []) }
        ensures err { OnErr result (self.new ≡ self.old) }
    {
        self.all.push(answer)?;
        Ok(())
    }

    /// The reply of the first one with a ticket.
    fn reply(&self, ticket: u64) -> Option<&Reply>
        ensures { option_copied result ≡ reply_of_ticket ticket self.now }
    {
        for answer in &self.all {
            if answer.ticket == ticket {
                return Some(&answer.reply);
            }
        }
        None
    }
}

/// The answers that are kept, of all owners.
#[derive(Drop)]
pub(crate) struct Kept {
    alloc: Global,
    pub(crate) of_owners: BTreeMap<u64, Answers>,
}

impl Kept {
    /// None is kept. Takes no memory.
    pub(crate) fn new(alloc: Global) -> Self
        ensures { (owner : ℕ) → kept_for result.of_owners.entries owner ≡ [] }
    {
        Kept {
            alloc,
            of_owners: BTreeMap::new(alloc),
        }
    }

    /// Keeps one for an owner, behind its others. Refused memory changes nothing.
    pub(crate) fn keep(&mut self, owner: u64, answer: Answer) -> Result<(), AllocError>
        ensures own { OnOk result (kept_for self.new.of_owners.entries owner
            ≡ kept_for self.old.of_owners.entries owner ++ answer ∷ []) }
        ensures others { (other : ℕ) → other ≢ owner →
            kept_for self.new.of_owners.entries other
            ≡ kept_for self.old.of_owners.entries other }
        ensures err { OnErr result (kept_for self.new.of_owners.entries owner
            ≡ kept_for self.old.of_owners.entries owner) }
    {
        match self.of_owners.get_mut(&owner) {
            Some(answers) => answers.push(answer),
            None => {
                let mut answers = Answers::new(self.alloc);
                answers.push(answer)?;
                let _none = self.of_owners.insert(owner, answers)?;
                Ok(())
            }
        }
    }

    /// Keeps none of an owner's any more.
    pub(crate) fn drop_all_of(&mut self, owner: u64)
        ensures own { kept_for self.new.of_owners.entries owner ≡ [] }
        ensures others { (other : ℕ) → other ≢ owner →
            kept_for self.new.of_owners.entries other
            ≡ kept_for self.old.of_owners.entries other }
    {
        drop(self.of_owners.remove(&owner));
    }

    /// The reply that is kept for an owner and has this ticket.
    pub(crate) fn reply(&self, owner: u64, ticket: u64) -> Option<&Reply>
        ensures { option_copied result
            ≡ reply_of_ticket ticket (kept_for self.now.of_owners.entries owner) }
    {
        match self.of_owners.get(&owner) {
            Some(answers) => answers.reply(ticket),
            None => None,
        }
    }
}
