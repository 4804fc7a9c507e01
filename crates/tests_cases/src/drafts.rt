//! From the lines of a text to its cases.

use crate::cases::Case;
use crate::orders::{Order, order_of_line};
use crate::troubles::Trouble;
use std::alloc::{AllocError, Global};

/// What the lines that are no orders belong to.
#[derive(Clone, Copy)]
enum Section {
    /// They are for readers.
    Remarks,
    /// The last file.
    File,
    /// The output.
    Out,
}

/// A case of which some lines were read.
#[derive(Drop)]
struct Draft {
    case: Case,
    section: Section,
}

/// The cases of a text, in their order.
pub(crate) fn read_cases(alloc: Global, text: &[u8]) -> Result<Vec<Case>, Trouble> {
    let mut cases = Vec::new(alloc);
    let mut draft = None;
    for line in text.split(|byte| *byte == b'\n') {
        draft = read_line(alloc, draft, line, &mut cases)?;
    }
    match draft {
        Some(_) => Err(Trouble::Unended),
        None => Ok(cases),
    }
}

/// The draft with one line more. A case that it ends goes to `cases`.
fn read_line(
    alloc: Global,
    draft: Option<Draft>,
    line: &[u8],
    cases: &mut Vec<Case>,
) -> Result<Option<Draft>, Trouble> {
    match (draft, order_of_line(line)?) {
        (None, None) => Ok(None),
        (None, Some(Order::Case(name))) => Ok(Some(Draft::begin(alloc, name)?)),
        (None, Some(_)) | (Some(_), Some(Order::Case(_))) => Err(Trouble::Unended),
        (Some(mut draft), Some(Order::Status(status))) => {
            draft.case.status = status;
            cases.push(draft.case)?;
            Ok(None)
        }
        (Some(mut draft), Some(order)) => {
            draft.follow(alloc, order)?;
            Ok(Some(draft))
        }
        (Some(mut draft), None) => {
            draft.append(line)?;
            Ok(Some(draft))
        }
    }
}

impl Draft {
    /// A case of which only the name was read.
    fn begin(alloc: Global, name: &str) -> Result<Draft, AllocError> {
        let case = Case {
            name: String::from_str(alloc, name)?,
            words: Vec::new(alloc),
            files: Vec::new(alloc),
            failing_reads: Vec::new(alloc),
            failing_puts: Vec::new(alloc),
            out: Vec::new(alloc),
            status: 0,
        };
        Ok(Draft {
            case,
            section: Section::Remarks,
        })
    }

    /// Does what an order within a case says.
    fn follow(&mut self, alloc: Global, order: Order<'_>) -> Result<(), Trouble> {
        match order {
            Order::Words(words) => self.add_words(alloc, words)?,
            Order::Word(word) => self.case.words.push(String::from_str(alloc, word)?)?,
            Order::File(name) => self.add_file(alloc, name)?,
            Order::NoNewline => self.drop_newline(),
            Order::FailingRead(number) => self.case.failing_reads.push(number)?,
            Order::FailingPut(number, bytes) => self.case.failing_puts.push((number, bytes))?,
            Order::Out => self.section = Section::Out,
            Order::Case(_) | Order::Status(_) => return Err(Trouble::Unended),
        }
        Ok(())
    }

    /// Adds words that have blanks between them.
    fn add_words(&mut self, alloc: Global, words: &str) -> Result<(), AllocError> {
        for word in words.split_whitespace() {
            self.case.words.push(String::from_str(alloc, word)?)?;
        }
        Ok(())
    }

    /// Adds a file, of which no line was read.
    fn add_file(&mut self, alloc: Global, name: &str) -> Result<(), AllocError> {
        let name = String::from_str(alloc, name)?;
        self.case.files.push((name, Vec::new(alloc)))?;
        self.section = Section::File;
        Ok(())
    }

    /// The bytes of the section, if it has any.
    fn body(&mut self) -> Option<&mut Vec<u8>> {
        match self.section {
            Section::Remarks => None,
            Section::File => match self.case.files.last_mut() {
                Some(file) => Some(&mut file.1),
                None => None,
            },
            Section::Out => Some(&mut self.case.out),
        }
    }

    /// Adds a line to the section.
    fn append(&mut self, line: &[u8]) -> Result<(), AllocError> {
        if let Some(body) = self.body() {
            body.extend_from_slice(line)?;
            body.push(b'\n')?;
        }
        Ok(())
    }

    /// Takes the newline from the end of the section.
    fn drop_newline(&mut self) {
        if let Some(body) = self.body() {
            body.pop();
        }
        self.section = Section::Remarks;
    }
}
