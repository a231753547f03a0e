//! Rows that ask a host for something.

use crate::answer::write;
use crate::events::{event_of, write_answer};
use crate::fault::LineFault;
use crate::line::{cut_word, place_of};
use crate::texts::Texts;
use flowc::{Event, Host};
use std::alloc::Global;
use std::mem;

/// A host, and the events that it is to be asked as one list.
#[derive(Drop)]
pub struct Stage {
    host: Host,
    events: Vec<Event>,
    alloc: Global,
}

impl Stage {
    pub fn new(alloc: Global) -> Stage {
        Stage {
            host: Host::new(alloc),
            events: Vec::new(alloc),
            alloc,
        }
    }

    /// Adds the event that words ask for to the list.
    pub fn add_event(&mut self, texts: &Texts, words: &str) -> Result<(), LineFault> {
        let event = event_of(texts, words)?;
        self.events.push(event)?;
        Ok(())
    }

    /// Answers words: `new` for a host without sessions, `run` for the events of the list, `many TIMES EVENT` for an event asked
    /// this number of times, of which the last answer is written, or one event.
    pub fn answer(
        &mut self,
        texts: &Texts,
        words: &str,
        answer: &mut Vec<u8>,
    ) -> Result<(), LineFault> {
        match cut_word(words) {
            ("new", _) => {
                self.host = Host::new(self.alloc);
                write(answer, b"= new\n")
            }
            ("run", _) => self.answer_events(answer),
            ("many", rest) => self.answer_many(texts, rest, answer),
            _ => {
                let answered = self.host.answer(event_of(texts, words)?);
                write_answer(self.alloc, answer, &answered)
            }
        }
    }

    fn answer_events(&mut self, answer: &mut Vec<u8>) -> Result<(), LineFault> {
        let events = mem::replace(&mut self.events, Vec::new(self.alloc));
        let answers = self.host.run(events)?;
        if answers.is_empty() {
            return write(answer, b"= none\n");
        }
        for answered in &answers {
            write_answer(self.alloc, answer, answered)?;
        }
        Ok(())
    }

    fn answer_many(
        &mut self,
        texts: &Texts,
        rest: &str,
        answer: &mut Vec<u8>,
    ) -> Result<(), LineFault> {
        let (times, words) = cut_word(rest);
        for _ in 1..place_of(times)? {
            // Only the last answer is wanted.
            let _ = self.host.answer(event_of(texts, words)?);
        }
        let answered = self.host.answer(event_of(texts, words)?);
        write_answer(self.alloc, answer, &answered)
    }
}
