//! What schedules take their events from.
//!
//! | Event and its numbers | |
//! |---|---|
//! | `append M E` | machine M has the export stream's entry E, at the end |
//! | `make M N` | machine M makes its next upload, of at most N entries |
//! | `whole M N` | the same with a header of the second version, to be whole |
//! | `parts M N` | the same with such a header, and not to be whole |
//! | `file M B` | machine M makes an upload of the journal file that has the bytes B |
//! | `deliver U N` | the first N bytes of upload U reach the collector |
//! | `alien B 0` | the bytes B reach the collector |
//! | `hand A 0` | answer A reaches the machine that it names |
//! | `restart M P` | machine M goes back to its saved resume point P |

use crate::operands::number_in;
use jc_base::{Entry, Limits};
use jc_export::read_all;
use jc_world::Event;
use std::alloc::Global;

#[derive(Drop)]
pub struct Stock<'a> {
    pub alloc: Global,
    pub entries: Vec<Entry>,
    bytes: &'a [Vec<u8>],
}

impl<'a> Stock<'a> {
    /// The entries of an export stream, if there is memory for them, and bytes.
    pub fn new(alloc: Global, entries: &[u8], bytes: &'a [Vec<u8>]) -> Option<Stock<'a>> {
        let reading = read_all(alloc, entries, &Limits::default()).ok()?;
        Some(Stock {
            alloc,
            entries: reading.entries,
            bytes,
        })
    }

    /// The event that a text means, if it means one and there is memory for it.
    pub fn event(&self, text: &str) -> Option<Event> {
        let mut words = text.split(' ');
        let name = words.next()?;
        let first = number_in(words.next()?)? as usize;
        let second = number_in(words.next()?)?;
        match name {
            "append" => Some(Event::Append(first, self.entry(second as usize)?)),
            "make" => Some(Event::Make(first, second)),
            "whole" => Some(Event::Make2(first, second, true)),
            "parts" => Some(Event::Make2(first, second, false)),
            "file" => Some(Event::MakeFile(first, self.copied(second as usize)?)),
            "deliver" => Some(Event::Deliver(first, second as usize)),
            "alien" => Some(Event::Alien(self.copied(first)?)),
            "hand" => Some(Event::Hand(first)),
            "restart" => Some(Event::Restart(first, second as usize)),
            _ => None,
        }
    }

    fn entry(&self, number: usize) -> Option<Entry> {
        self.entries.get(number)?.try_clone().ok()
    }

    fn copied(&self, number: usize) -> Option<Vec<u8>> {
        Vec::from_slice(self.alloc, self.bytes.get(number)?).ok()
    }
}
