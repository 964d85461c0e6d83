//! Cases of the readers and writers of text and bytes, as plans: commands and the records that they ask for, or what is wrong
//! with them and where; calls by item lists, and the items of rows; fields and records, read and written again; tokens; which
//! command a text is; moments as texts; what is printed of rows and answers.
#![tactic(auto)]

mod commands;
mod fields;
mod grammar;
mod items;
mod lines;
mod records;
mod shown;
mod spelled;
mod times;
mod tokens;

use commands::{tell_asked, tell_time_asked};
use fields::{tell_copied, tell_name_at, tell_number_at, tell_stop};
use grammar::tell_parsed;
use items::tell_called;
use qm_plans::{Desk, follow, number_and_rest, push_bytes, push_line};
use records::tell_record;
use shown::{tell_answers, tell_listing, tell_row_items, tell_rows};
use spelled::{tell_called_spelling, tell_spelling};
use std::alloc::{AllocError, Global};
use std::io;
use std::process::ExitCode;
use times::{tell_day, tell_time};
use tokens::tell_tokens;

// The bytes of fields that are in work.
#[derive(Drop)]
struct Taken {
    bytes: Vec<u8>,
}

// The two numbers that a text names.
fn two_numbers(text: &str) -> (usize, usize) {
    let (first, rest) = number_and_rest(text);
    (first, number_and_rest(rest).0)
}

// Tells what a verb asks of calls by item lists, or of rows and answers.
fn tell_of_calls(
    alloc: Global,
    told: &mut Vec<u8>,
    verb: &str,
    text: &str,
) -> Result<(), AllocError> {
    match verb {
        "spell-call" => tell_called_spelling(alloc, told, text),
        "call" | "same" | "whether" | "altered" | "many" => tell_called(alloc, told, verb, text),
        "row-items" => tell_row_items(alloc, told),
        "rows" => tell_rows(alloc, told),
        "listing" => tell_listing(alloc, told),
        "answers" => tell_answers(alloc, told),
        "" | "#" => Ok(()),
        _ => push_line(told, "no such verb"),
    }
}

impl Taken {
    // Takes fields into work, and tells whether they are written as they were read.
    fn take(&mut self, alloc: Global, told: &mut Vec<u8>, bytes: &[u8]) -> Result<(), AllocError> {
        self.bytes.clear();
        self.bytes.extend_from_slice(bytes)?;
        tell_copied(alloc, told, bytes)
    }

    // Tells what a verb asks of bytes on disk, or else of calls and rows.
    fn tell_of_bytes(
        &mut self,
        alloc: Global,
        told: &mut Vec<u8>,
        verb: &str,
        text: &str,
        bytes: &[u8],
    ) -> Result<(), AllocError> {
        match verb {
            "record" => tell_record(alloc, told, bytes),
            "fields" => self.take(alloc, told, bytes),
            "number" => tell_number_at(alloc, told, &self.bytes, two_numbers(text)),
            "name" => tell_name_at(alloc, told, &self.bytes, number_and_rest(text).0),
            "name-in" | "moment-in" | "number-in" | "text-in" | "byte-in" => {
                tell_stop(alloc, told, verb, bytes)
            }
            _ => tell_of_calls(alloc, told, verb, text),
        }
    }

    // Tells what a verb asks of a text, and of the bytes that it means, or else of other bytes, calls and rows.
    fn tell(
        &mut self,
        alloc: Global,
        told: &mut Vec<u8>,
        verb: &str,
        text: &str,
        bytes: &[u8],
    ) -> Result<(), AllocError> {
        match verb {
            "ask" => tell_asked(alloc, told, bytes),
            "spell" => tell_spelling(alloc, told, bytes),
            "when" => tell_time_asked(alloc, told, text),
            "command" | "named" | "parts" => tell_parsed(alloc, told, verb, bytes),
            "tokens" => tell_tokens(alloc, told, bytes),
            "time" => tell_time(alloc, told, bytes),
            "day" => tell_day(alloc, told, number_and_rest(text).0 as u64),
            _ => self.tell_of_bytes(alloc, told, verb, text, bytes),
        }
    }
}

impl Desk for Taken {
    fn act(
        &mut self,
        rt: &HostRuntime,
        told: &mut Vec<u8>,
        verb: &str,
        text: &str,
    ) -> io::Result<()> {
        let alloc = rt.alloc();
        let mut bytes = Vec::new(alloc);
        push_bytes(&mut bytes, text)?;
        self.tell(alloc, told, verb, text, &bytes)?;
        Ok(())
    }
}

fn main(rt: HostRuntime) -> io::Result<ExitCode> {
    let mut taken = Taken {
        bytes: Vec::new(rt.alloc()),
    };
    follow(&rt, &mut taken)
}
