//! A data file, read line by line.

ghost use Rattle.std.specs.Prelude.{◌≡◌};

use crate::answer::write;
use crate::changes::change;
use crate::commands::answer_command;
use crate::counts::Counts;
use crate::fault::{LineFault, LineRefusal};
use crate::line::cut_word;
use crate::sessions::Stage;
use crate::texts::Texts;
use crate::tokens::answer_tokens;
use common::OrNoMemory;
use std::alloc::Global;

// A row: the line that it stands in, what came of it, and what is wanted.
#[derive(Drop)]
struct AskedRow {
    line: usize,
    answer: Vec<u8>,
    wanted: Vec<u8>,
}

/// What the lines of a data file have come to.
#[derive(Drop)]
pub struct Book<'a> {
    path: &'a str,
    texts: Texts,
    stage: Stage,
    row: Option<AskedRow>,
    counts: Counts,
    report: Vec<u8>,
    alloc: Global,
}

impl<'a> Book<'a> {
    fn new(alloc: Global, path: &'a str) -> Book<'a> {
        Book {
            path,
            texts: Texts::new(alloc),
            stage: Stage::new(alloc),
            row: None,
            counts: Counts::new(),
            report: Vec::new(alloc),
            alloc,
        }
    }

    /// Reads a data file. A file without a row has a fault.
    pub fn read(rt: &HostRuntime, path: &'a str, text: &str) -> Result<Book<'a>, LineFault> {
        let mut book = Book::new(rt.alloc(), path);
        let mut number = 0usize;
        for line in text.lines() {
            number = number.saturating_add(1);
            match book.read_line(rt, number, line) {
                Ok(()) => {}
                Err(fault) => book.report_fault(number, fault)?,
            }
        }
        book.end_row()?;
        if book.counts.rows == 0 {
            book.report_fault(number, OrNoMemory::Refused(LineRefusal::NO_ROWS))?;
        }
        Ok(book)
    }

    pub fn counts(&self) -> Counts
        ensures { result ≡ self.now.counts }
    {
        self.counts
    }

    /// A line for each wrong line, and what is wanted and what was answered for each row that differs.
    pub fn report(&self) -> &[u8] {
        &self.report
    }

    fn read_line(&mut self, rt: &HostRuntime, number: usize, line: &str) -> Result<(), LineFault> {
        if line.is_empty() || line.starts_with('#') {
            return Ok(());
        }
        let (word, _) = cut_word(line);
        match word {
            "=" | ">" | "!" | "\\" => self.want(line),
            _ => {
                self.end_row()?;
                self.do_line(rt, number, line)
            }
        }
    }

    fn do_line(&mut self, rt: &HostRuntime, number: usize, line: &str) -> Result<(), LineFault> {
        let (word, rest) = cut_word(line);
        match word {
            "flowc" | "host" | "tokens" | "count" | "same" | "size" => self.ask(number, line),
            "event" => self.stage.add_event(&self.texts, rest),
            _ => change(rt, &mut self.texts, word, rest),
        }
    }

    // What is wanted of the row.
    fn want(&mut self, line: &str) -> Result<(), LineFault> {
        let Some(row) = &mut self.row else {
            return Err(OrNoMemory::Refused(LineRefusal::NO_ROW));
        };
        write(&mut row.wanted, line.as_bytes())?;
        write(&mut row.wanted, b"\n")
    }

    // Makes a row of a line, and answers it.
    fn ask(&mut self, number: usize, line: &str) -> Result<(), LineFault> {
        let mut answer = Vec::new(self.alloc);
        self.answer(line, &mut answer)?;
        self.row = Some(AskedRow {
            line: number,
            answer,
            wanted: Vec::new(self.alloc),
        });
        Ok(())
    }

    fn answer(&mut self, line: &str, answer: &mut Vec<u8>) -> Result<(), LineFault> {
        let (word, rest) = cut_word(line);
        match word {
            "host" => self.stage.answer(&self.texts, rest, answer),
            "same" => answer_same(&self.texts, rest, answer),
            "size" => answer_size(&self.texts, rest, answer),
            "tokens" => answer_tokens(&self.texts, rest, true, answer),
            "count" => answer_tokens(&self.texts, rest, false, answer),
            _ => answer_command(&mut self.texts, line, answer),
        }
    }

    // Compares what the row wants with what came of it.
    fn end_row(&mut self) -> Result<(), LineFault> {
        let Some(row) = self.row.take() else {
            return Ok(());
        };
        let differs = row.answer != row.wanted;
        self.counts = self.counts.and_row(differs);
        if differs {
            self.report_row(&row)?;
        }
        Ok(())
    }

    fn report_row(&mut self, row: &AskedRow) -> Result<(), LineFault> {
        let (path, number) = (self.path, row.line);
        let line = format!(in self.alloc; "{path}:{number}: differs, wanted\n")?;
        write(&mut self.report, line.as_bytes())?;
        write(&mut self.report, &row.wanted)?;
        write(&mut self.report, b"answered\n")?;
        write(&mut self.report, &row.answer)
    }

    fn report_fault(&mut self, number: usize, fault: LineFault) -> Result<(), LineFault> {
        self.counts = self.counts.and_fault();
        let path = self.path;
        let line = format!(in self.alloc; "{path}:{number}: {fault}\n")?;
        write(&mut self.report, line.as_bytes())
    }
}

// `same NAME OTHER`: whether two texts have the same bytes.
fn answer_same(texts: &Texts, rest: &str, answer: &mut Vec<u8>) -> Result<(), LineFault> {
    let (name, other) = cut_word(rest);
    if texts.get(name)? == texts.get(other)? {
        write(answer, b"= same\n")
    } else {
        write(answer, b"= other\n")
    }
}

// `size NAME`: how many bytes a text has.
fn answer_size(texts: &Texts, name: &str, answer: &mut Vec<u8>) -> Result<(), LineFault> {
    let size = texts.get(name)?.len();
    let line = format!(in texts.alloc(); "= {size}\n")?;
    write(answer, line.as_bytes())
}
