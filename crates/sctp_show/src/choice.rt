//! Which packets are shown, by several filters: what all have, what one of some has, and what is not to be there.

ghost use Rattle.std.specs.Prelude.{◌≡◌, true};
ghost use Rattle.std.specs.List.{list_any, list_all};
ghost use Rattle.sctp_show.specs.Choice as choices;

use crate::filter::Filter;
use crate::scene::Scene;
use sctp_dissect::dissection::Dissection;
use std::alloc::{AllocError, Global};

/// A filter, which a packet is to pass, or not to pass.
#[derive(Debug, Drop)]
pub struct Term {
    pub filter: Filter,
    pub is_not: bool,
}

/// Terms, of which a packet is to meet one.
#[derive(Debug, Drop)]
pub struct Either {
    pub terms: Vec<Term>,
}

/// What is asked of packets: to pass a filter, and to meet one term of each of these.
#[derive(Debug, Drop)]
pub struct Choice {
    pub all: Filter,
    pub any: Vec<Either>,
}

impl Term {
    /// Asks for what words with ` and ` between them say, or behind `not ` for what one word does not. Answers whether they say that.
    fn ask(&mut self, words: &str) -> Result<bool, AllocError> {
        let Some(word) = words.strip_prefix("not ") else {
            return self.ask_all(words);
        };
        self.is_not = true;
        self.filter.ask(word)
    }

    /// Asks for what each of the words says.
    fn ask_all(&mut self, words: &str) -> Result<bool, AllocError> {
        for word in words.split(" and ") {
            if !self.filter.ask(word)? {
                return Ok(false);
            }
        }
        Ok(true)
    }

    /// Whether a packet that was captured so meets the term.
    fn is_met_by(&self, seen: &Dissection, scene: &Scene) -> bool
        ensures { result ≡ choices.is_met_by scene.now seen.now self.now }
    {
        self.filter.passes(seen, scene) != self.is_not
    }
}

impl Either {
    /// Whether a packet meets one of the terms.
    fn is_met_by(&self, seen: &Dissection, scene: &Scene) -> bool
        ensures { result ≡ choices.has_one scene.now seen.now self.now }
    {
        self.terms.iter().any(|term| term.is_met_by(seen, scene))
    }

    /// Whether a checksum has to be computed to know it.
    fn needs_checksum(&self) -> bool {
        self.terms.iter().any(|term| term.filter.only_wrong)
    }
}

impl Choice {
    /// Asks for nothing, so that every packet passes.
    pub fn new(alloc: Global) -> Self
        ensures { choices.asks_nothing result ≡ true }
    {
        Choice {
            all: Filter::new(alloc),
            any: Vec::new(alloc),
        }
    }

    /// Asks for what a word says (`Filter::ask`), or for one of several such words: ` or ` stands between them, and each is a word, words with
    /// ` and ` between them, or `not ` and a word. Answers whether it says that.
    pub fn ask(&mut self, alloc: Global, words: &str) -> Result<bool, AllocError> {
        if words.split_once(" or ").is_none() && words.strip_prefix("not ").is_none() {
            return self.ask_all(words);
        }
        let mut terms = Vec::new(alloc);
        for part in words.split(" or ") {
            let mut term = Term {
                filter: Filter::new(alloc),
                is_not: false,
            };
            if !term.ask(part)? {
                return Ok(false);
            }
            terms.push(term)?;
        }
        self.any.push(Either { terms })?;
        Ok(true)
    }

    /// Asks for what each of the words says.
    fn ask_all(&mut self, words: &str) -> Result<bool, AllocError> {
        for word in words.split(" and ") {
            if !self.all.ask(word)? {
                return Ok(false);
            }
        }
        Ok(true)
    }

    /// Whether each of the others has a term that a packet meets.
    fn is_met_by(&self, seen: &Dissection, scene: &Scene) -> bool
        ensures { result ≡ list_all (choices.has_one scene.now seen.now) self.now.any.items }
    {
        self.any.iter().all(|either| either.is_met_by(seen, scene))
    }

    /// Whether a packet that was captured so has what is asked for. It takes no memory.
    pub fn passes(&self, seen: &Dissection, scene: &Scene) -> bool
        ensures { result ≡ choices.passes self.now scene.now seen.now }
    {
        self.all.passes(seen, scene) && self.is_met_by(seen, scene)
    }

    /// Whether nothing is asked for.
    pub fn asks_nothing(&self) -> bool
        ensures { result ≡ choices.asks_nothing self.now }
    {
        self.all.asks_nothing() && self.any.is_empty()
    }

    /// Whether a checksum has to be computed to know what passes.
    pub fn needs_checksum(&self) -> bool {
        self.all.only_wrong || self.any.iter().any(|either| either.needs_checksum())
    }
}
