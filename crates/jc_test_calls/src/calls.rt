//! What the words of the command line call, over one journal in memory.
//!
//! | Word and operand | |
//! |---|---|
//! | `limits N,N,N,N,N` | the journal is empty again, and has limits: of names, values, fields, entries, files |
//! | `space PATH` | collects the upload as a space, and says what was asked of it |
//! | `stream PATH` | collects the upload as a stream in small pieces |
//! | `run PATH` | collects the upload by a run of one delivery |
//! | `get ID:NUMBER` | the stored entry under the key |
//! | `read PATH` | reads the export stream at once |
//! | `entries PATH` | reads it entry by entry, in small pieces |
//! | `reader PATH` | reads it so from a reader |
//! | `scan PATH` | reads it by a scanner, in one piece; so do `scan-1` and `scan-7`, in pieces of 1 and of 7 bytes |
//! | `feed PATH` | feeds it to a scanner as long as that takes bytes, and says what each call answers |
//! | `file PATH` | reads the journal file by ranges, and says what was asked of it |
//! | `pages PATH` | reads the journal file by pages |
//! | `copies PATH` | copies and spells each entry of the export stream, in every way there is |
//! | `upload PATH` | makes the first upload of the export stream's entries |
//! | `send PATH` | makes an upload of the journal file |
//! | `fields PATH` | how many fields the text has |
//! | `head PATH` | the upload's header, and what it says |
//! | `answer PATH` | writes the answer's line that the file has |
//! | `resume PATH` | writes the resume point that the file has |
//! | `line TEXT` | a line of this text is printed |
//! | `numbers N,N..` | the numbers of the words that come next |
//! | `texts yes` | the words `entries`, `reader` and `pages` print the entries' texts from here on; `no` ends that |
//!
//! Some words take numbers that stand before them:
//!
//! | Word and operand | Numbers | |
//! |---|---|---|
//! | `entries PATH` | most, reads | in pieces of so many bytes at most, and the read behind so many fails |
//! | `long PATH` | length, place | as `file`, in a space of a length; of the bytes those from the place on count |
//! | `parts PATH` | length, places | eight bytes of such a space at each of the places, which it reads by pages |
//! | `payload PATH` | offset | the payload of the journal file's object at the offset |
//! | `value PATH` | calls | whether the value is a text, and the texts of an entry with it |
//!
//! Others take files, with commas between their paths:
//!
//! | Word | Numbers | Files |
//! |---|---|---|
//! | `scanner` | | pieces of an export stream, or empty ones: a scanner is fed with these, and gives what it found |
//! | `uploader` | limit | an export stream, a resume point and answers: an uploader makes its next upload and takes these |
//! | `schedules` | | schedules of events, each in worlds of its own; `schedules.rt` says what the files are |
//! | `journal` | | steps over a journal; `journals.rt` says what the files are |
//!
//! Where a call answers that memory was refused, `refused` is printed in the place of what it makes.

use crate::kept::Given;
use crate::operands::number_in;
use crate::output::{Output, write_line};
use crate::{collecting, entries, journals, readings, schedules, spaces, values};
use jc_base::Limits;
use jc_keeper::MapKeeper;
use std::alloc::Global;
use std::{fs, io};

#[derive(Drop)]
pub struct Calls {
    alloc: Global,
    limits: Limits,
    numbers: Vec<u64>,
    spells: bool,
    keeper: MapKeeper,
    output: Output,
}

impl Calls {
    pub fn new(alloc: Global) -> Calls {
        Calls {
            alloc,
            limits: Limits::default(),
            numbers: Vec::new(alloc),
            spells: false,
            keeper: MapKeeper::new(alloc),
            output: Output::new(alloc),
        }
    }

    /// What is to be printed.
    pub fn into_output(self) -> io::Result<Vec<u8>> {
        self.output.into_bytes()
    }

    /// Makes the call of a word, if the files can be read that it names.
    pub fn perform(&mut self, rt: &HostRuntime, word: &str, operand: &str) -> io::Result<()> {
        match word {
            "limits" => self.limit(operand),
            "numbers" => self.number(operand),
            "texts" => self.spell(operand),
            "line" => write_line(&mut self.output, operand, &[]),
            "get" => collecting::get(self.alloc, &mut self.keeper, operand, &mut self.output),
            "scanner" | "uploader" | "schedules" | "journal" => {
                self.call_together(word, &read_files(rt, operand)?);
            }
            _ => self.call(word, &fs::read(rt, operand)?),
        }
        Ok(())
    }

    fn limit(&mut self, operand: &str) {
        match limits_in(self.alloc, operand) {
            Some(limits) => {
                self.limits = limits;
                self.keeper = MapKeeper::new(self.alloc);
            }
            None => self.output.no_meaning(),
        }
    }

    fn number(&mut self, operand: &str) {
        match numbers_in(self.alloc, operand) {
            Some(numbers) => self.numbers = numbers,
            None => self.output.no_meaning(),
        }
    }

    fn spell(&mut self, operand: &str) {
        self.spells = operand == "yes";
    }

    fn call_together(&mut self, word: &str, files: &[Vec<u8>]) {
        let (alloc, limits, output) = (self.alloc, &self.limits, &mut self.output);
        match word {
            "scanner" => readings::feed_each(alloc, files, limits, output),
            "uploader" => entries::uploader(alloc, files, &self.numbers, limits, output),
            "schedules" => schedules::take_all(alloc, files, output),
            _ => journals::take_all(
                Given {
                    alloc,
                    files,
                    limits: *limits,
                },
                output,
            ),
        }
    }

    fn call(&mut self, word: &str, bytes: &[u8]) {
        let (alloc, limits, output) = (self.alloc, &self.limits, &mut self.output);
        match word {
            "space" => collecting::space(alloc, &mut self.keeper, bytes, limits, output),
            "stream" => collecting::stream(alloc, &mut self.keeper, bytes, limits, output),
            "run" => collecting::run_one(alloc, &mut self.keeper, bytes, limits, output),
            "read" => readings::read(alloc, bytes, limits, output),
            "scan" => readings::scan(alloc, bytes, limits, usize::MAX, output),
            "scan-1" => readings::scan(alloc, bytes, limits, 1, output),
            "scan-7" => readings::scan(alloc, bytes, limits, 7, output),
            "feed" => readings::feed_whole(alloc, bytes, limits, output),
            "file" => spaces::file(alloc, bytes, *limits, output),
            "copies" => entries::copies(alloc, bytes, limits, output),
            "upload" => entries::upload(alloc, bytes, limits, output),
            "send" => entries::send(alloc, bytes, output),
            "resume" => entries::resume(alloc, bytes, output),
            "fields" => values::fields(alloc, bytes, output),
            "head" => values::head(bytes, output),
            "answer" => values::answer(bytes, output),
            _ => self.call_as_set(word, bytes),
        }
    }

    fn call_as_set(&mut self, word: &str, bytes: &[u8]) {
        let (alloc, limits, output) = (self.alloc, self.limits, &mut self.output);
        let (numbers, spells) = (self.numbers.as_slice(), self.spells);
        match word {
            "entries" => readings::entries(alloc, bytes, numbers, limits, spells, output),
            "reader" => readings::reader(alloc, bytes, limits, spells, output),
            "pages" => readings::pages(alloc, bytes, limits, spells, output),
            "long" => spaces::long(alloc, bytes, numbers, limits, output),
            "parts" => spaces::parts(alloc, bytes, numbers, output),
            "payload" => spaces::object(bytes, numbers, output),
            "value" => values::value(alloc, bytes, numbers, &limits, output),
            _ => output.no_meaning(),
        }
    }
}

/// The files whose paths have commas between them.
fn read_files(rt: &HostRuntime, paths: &str) -> io::Result<Vec<Vec<u8>>> {
    let mut files = Vec::new(rt.alloc());
    for path in paths.split(',') {
        files.push(fs::read(rt, path)?)?;
    }
    Ok(files)
}

/// The numbers that have commas between them, if there is memory for them.
fn numbers_in(alloc: Global, operand: &str) -> Option<Vec<u64>> {
    let mut numbers = Vec::new(alloc);
    for digits in operand.split(',') {
        numbers.push(number_in(digits)?).ok()?;
    }
    Some(numbers)
}

fn limits_in(alloc: Global, operand: &str) -> Option<Limits> {
    let numbers = numbers_in(alloc, operand)?;
    let [name, value, fields, entry, file] = numbers.as_slice() else {
        return None;
    };
    Limits::new(*name, *value, *fields, *entry, *file)
}
