//! The words of the text format (Core Specification 1.0, 6), as far as the rows of the tests use it.
use hph_leb::put_u32;
use std::alloc::{AllocError, Global};
use std::test::Fail;

/// The word without parentheses.
fn bare(word: &str) -> &str {
    let inner = word.strip_prefix('(').unwrap_or(word);
    match inner.split_once(')') {
        None => inner,
        Some((inner, _)) => inner,
    }
}

/// The words of a text.
pub fn words_of<'a>(alloc: Global, text: &'a str) -> Result<Vec<&'a str>, AllocError> {
    let mut words = Vec::new(alloc);
    for word in text.split_whitespace() {
        words.push(bare(word))?;
    }
    Ok(words)
}

/// The byte of a type (5.3.1).
fn type_byte(word: &str) -> Option<u8> {
    match word {
        "i32" => Some(0x7F),
        "i64" => Some(0x7E),
        _ => None,
    }
}

/// The words of a module, of which so many have been read.
#[derive(Drop)]
pub struct Words<'a> {
    pub words: &'a [&'a str],
    pub next: usize,
}

impl<'a> Words<'a> {
    /// Takes the next word, if there is one.
    pub fn take(&mut self) -> Option<&'a str> {
        let word = self.words.get(self.next).copied();
        if word.is_some() {
            self.skip();
        }
        word
    }

    pub fn peek(&self) -> Option<&'a str> {
        self.words.get(self.next).copied()
    }

    pub fn skip(&mut self) {
        self.next = self.next.saturating_add(1);
    }

    /// Takes the word, if it is the next one.
    pub fn takes(&mut self, word: &str) -> bool {
        let is_next = self.peek() == Some(word);
        if is_next {
            self.skip();
        }
        is_next
    }

    /// Takes a number, if there is one.
    pub fn number(&mut self) -> Option<u32> {
        let number = self.peek()?.parse::<u32>().ok()?;
        self.skip();
        Some(number)
    }

    /// Takes what stands in quotes.
    pub fn quoted(&mut self) -> Option<&'a str> {
        let inner = self.peek()?.strip_prefix('"')?.strip_suffix('"')?;
        self.skip();
        Some(inner)
    }

    /// Takes a type, if there is one, and gives its byte.
    pub fn val_type(&mut self) -> Option<u8> {
        let byte = type_byte(self.peek()?)?;
        self.skip();
        Some(byte)
    }

    /// How many numbers are next.
    fn numbers_ahead(&self) -> u32 {
        let mut ahead = 0u32;
        for word in self.words.iter().skip(self.next) {
            if word.parse::<u32>().is_err() {
                break;
            }
            ahead = ahead.saturating_add(1);
        }
        ahead
    }

    /// How many types are next.
    fn types_ahead(&self) -> u32 {
        let mut ahead = 0u32;
        for word in self.words.iter().skip(self.next) {
            if type_byte(word).is_none() {
                break;
            }
            ahead = ahead.saturating_add(1);
        }
        ahead
    }

    /// Adds the number that is next.
    pub fn put_number(&mut self, out: &mut Vec<u8>) -> Result<(), Fail> {
        let number = self.number().ok_or("no number")?;
        put_u32(out, number)?;
        Ok(())
    }

    /// Adds the numbers that are next, and before them how many they are; the last is not counted among the labels of a branch table.
    pub fn put_numbers(&mut self, out: &mut Vec<u8>, uncounted: u32) -> Result<(), Fail> {
        let ahead = self.numbers_ahead();
        put_u32(out, ahead.saturating_sub(uncounted))?;
        for _ in 0..ahead {
            self.put_number(out)?;
        }
        Ok(())
    }

    /// Adds the type that is next.
    pub fn put_type(&mut self, out: &mut Vec<u8>) -> Result<(), Fail> {
        let byte = self.val_type().ok_or("no type")?;
        out.push(byte)?;
        Ok(())
    }

    /// Adds the types behind a keyword, and before them how many they are; none where the keyword isn't there.
    pub fn put_types(&mut self, out: &mut Vec<u8>, keyword: &str) -> Result<(), Fail> {
        let ahead = if self.takes(keyword) {
            self.types_ahead()
        } else {
            0
        };
        put_u32(out, ahead)?;
        for _ in 0..ahead {
            self.put_type(out)?;
        }
        Ok(())
    }

    /// Adds a run of one local for each type behind the keyword `local` (5.4.5).
    pub fn put_locals(&mut self, out: &mut Vec<u8>) -> Result<(), Fail> {
        let ahead = if self.takes("local") {
            self.types_ahead()
        } else {
            0
        };
        put_u32(out, ahead)?;
        for _ in 0..ahead {
            out.push(1)?;
            self.put_type(out)?;
        }
        Ok(())
    }

    /// Adds a text that stands in quotes, behind its length (5.2.4).
    pub fn put_text(&mut self, out: &mut Vec<u8>) -> Result<(), Fail> {
        let text = self.quoted().ok_or("no text")?;
        let length = u32::try_from(text.len())?;
        put_u32(out, length)?;
        out.extend_from_slice(text.as_bytes())?;
        Ok(())
    }

    /// Adds limits (5.3.4).
    pub fn put_limits(&mut self, out: &mut Vec<u8>) -> Result<(), Fail> {
        let min = self.number().ok_or("no number")?;
        let max = self.number();
        self.takes("funcref");
        out.push(u8::from(max.is_some()))?;
        put_u32(out, min)?;
        if let Some(max) = max {
            put_u32(out, max)?;
        }
        Ok(())
    }

    /// Adds the type of a global (5.3.6).
    pub fn put_global_type(&mut self, out: &mut Vec<u8>) -> Result<(), Fail> {
        let mutable = self.takes("mut");
        self.put_type(out)?;
        out.push(u8::from(mutable))?;
        Ok(())
    }
}
