//! A case that is being answered: the fields that are still to be read, and what was answered so far.

use crate::fields::{CaseFault, digits, octets_of};
use std::alloc::{AllocError, Global};
use std::fmt::{Debug, Display};
use std::str::{FromStr, from_utf8};

/// A line that is never given back, so that the fields of a case last.
pub fn kept_line(line: String) -> &'static str {
    from_utf8(line.into_bytes().leak()).unwrap_or("")
}

/// A case. Its fields are read one after the other, and its answer is put word by word.
///
/// A field that isn't there, or is out of form or out of range, is read as 0, as an empty word or as no octets, and the case has no
/// answer. What is read or put afterwards changes nothing of that.
#[derive(Drop)]
pub struct Case {
    pub alloc: Global,
    /// The fields that are still to be read.
    rest: Option<&'static str>,
    /// What stands between two fields.
    between: &'static str,
    answer: String,
    /// Why there is no answer.
    fault: Option<CaseFault>,
}

impl Case {
    /// A case of fields with one blank between them, of which nothing is answered yet.
    pub fn new(alloc: Global, fields: &'static str) -> Self {
        Case {
            alloc,
            rest: Some(fields),
            between: " ",
            answer: String::new(alloc),
            fault: None,
        }
    }

    /// What was answered, or why there is no answer.
    pub fn end(self) -> Result<String, CaseFault> {
        let Case {
            alloc: _,
            rest: _,
            between: _,
            answer,
            fault,
        } = self;
        match fault {
            None => Ok(answer),
            Some(fault) => Err(fault),
        }
    }

    /// The case has no answer, since it isn't in form.
    pub fn refuse(&mut self) {
        self.fault = Some(CaseFault::Form);
    }

    /// The case has no answer, since there is no memory.
    pub fn fail(&mut self) {
        self.fault = Some(CaseFault::Memory);
    }

    /// Whether the case has no answer.
    pub fn is_refused(&self) -> bool {
        self.fault.is_some()
    }

    /// From here on the fields of this text are read, with this between them.
    pub fn read(&mut self, fields: &'static str, between: &'static str) {
        self.rest = Some(fields);
        self.between = between;
    }

    /// All fields that are still to be read, as they stand.
    pub fn rest(&mut self) -> &'static str {
        self.rest.take().unwrap_or("")
    }

    /// Whether a field is still to be read.
    pub fn has_more(&self) -> bool {
        self.rest.is_some()
    }

    /// The next field, if there is one.
    pub fn next_word(&mut self) -> Option<&'static str> {
        let rest = self.rest.take()?;
        match rest.split_once(self.between) {
            Some((word, behind)) => {
                self.rest = Some(behind);
                Some(word)
            }
            None => Some(rest),
        }
    }

    /// The next field.
    pub fn word(&mut self) -> &'static str {
        match self.next_word() {
            Some(word) => word,
            None => {
                self.refuse();
                ""
            }
        }
    }

    /// What a name stands for in a table; else `other`, and the case has no answer.
    pub fn named<T: Copy>(&mut self, name: &str, table: &[(&str, T)], other: T) -> T {
        for (known, value) in table {
            if *known == name {
                return *value;
            }
        }
        self.refuse();
        other
    }

    /// What the next field stands for in a table; else `other`, and the case has no answer.
    pub fn one_of<T: Copy>(&mut self, table: &[(&str, T)], other: T) -> T {
        let name = self.word();
        self.named(name, table, other)
    }

    /// The number of the next field.
    pub fn number<N: FromStr + Default>(&mut self) -> N
    where
        N::Err: Drop,
    {
        match N::from_str(self.word()) {
            Ok(number) => number,
            Err(_) => {
                self.refuse();
                N::default()
            }
        }
    }

    /// The number of the next field, or None for `-`.
    pub fn optional<N: FromStr + Default>(&mut self) -> Option<N>
    where
        N::Err: Drop,
    {
        if self.rest.unwrap_or("").starts_with("-") {
            self.word();
            return None;
        }
        Some(self.number())
    }

    /// The truth value of the next field, 0 or 1.
    pub fn truth(&mut self) -> bool {
        match self.word() {
            "1" => true,
            "0" => false,
            _ => {
                self.refuse();
                false
            }
        }
    }

    /// The octets of the next field: two hexadecimal digits each, or `-` for none.
    pub fn octets(&mut self) -> Vec<u8> {
        match octets_of(self.alloc, self.word()) {
            Ok(octets) => octets,
            Err(fault) => {
                self.fault = Some(fault);
                Vec::new(self.alloc)
            }
        }
    }

    /// Four octets of the next field.
    pub fn four(&mut self) -> [u8; 4] {
        let octets = self.octets();
        match octets.as_slice() {
            [first, second, third, fourth] => [*first, *second, *third, *fourth],
            _ => {
                self.refuse();
                [0; 4]
            }
        }
    }

    /// How many octets were answered so far.
    pub fn answered(&self) -> usize {
        self.answer.len()
    }

    /// Puts a word behind the answer.
    pub fn put(&mut self, word: &str) {
        if self.answer.push_str(word).is_err() {
            self.fail();
        }
    }

    /// Puts a value as `Debug` prints it.
    pub fn tell<T: Debug>(&mut self, value: &T) {
        if write!(self.answer, "{value:?}").is_err() {
            self.fail();
        }
    }

    /// Puts a value as `Display` prints it.
    pub fn say<T: Display>(&mut self, value: &T) {
        if write!(self.answer, "{value}").is_err() {
            self.fail();
        }
    }

    /// Puts a word, and behind it a value as `Debug` prints it.
    pub fn tell_behind<T: Debug>(&mut self, word: &str, value: &T) {
        self.put(word);
        self.tell(value);
    }

    /// Puts a word, and behind it a value as `Display` prints it.
    pub fn say_behind<T: Display>(&mut self, word: &str, value: &T) {
        self.put(word);
        self.say(value);
    }

    /// Puts what was made as `Debug` prints it; the case has no answer where there was no memory for it.
    pub fn tell_made<T: Debug + Drop>(&mut self, made: Result<T, AllocError>) {
        match made {
            Ok(value) => self.tell(&value),
            Err(_) => self.fail(),
        }
    }

    /// The case has no answer where there was no memory for what was done.
    pub fn note(&mut self, done: Result<(), AllocError>) {
        if done.is_err() {
            self.fail();
        }
    }

    /// Puts the text that octets are.
    pub fn put_text(&mut self, octets: &[u8]) {
        match String::from_utf8_lossy(self.alloc, octets) {
            Ok(text) => self.put(text.as_str()),
            Err(_) => self.fail(),
        }
    }

    /// Puts octets as hexadecimal digits, or `-` where there are none.
    pub fn put_digits(&mut self, octets: &[u8]) {
        match digits(self.alloc, octets) {
            Ok(digits) => self.put(digits.as_str()),
            Err(_) => self.fail(),
        }
    }

    /// Puts numbers, with this word between them.
    pub fn put_numbers(&mut self, between: &str, numbers: &[u64]) {
        let mut before = "";
        for number in numbers {
            self.put(before);
            self.say(number);
            before = between;
        }
    }

    /// Puts what is told, or that the case has no answer.
    pub fn put_told(&mut self, told: Result<String, CaseFault>) {
        match told {
            Ok(text) => self.put(text.as_str()),
            Err(fault) => self.fault = Some(fault),
        }
    }

    /// Takes back the last character of the answer.
    pub fn take_back(&mut self) {
        self.answer.pop();
    }
}
