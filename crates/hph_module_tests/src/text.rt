//! Modules in the text format, as bytes (Core Specification 1.0, 5.5, 6.6). Nothing has an identifier, and parentheses are not read.
use crate::instructions::put_expression;
use crate::words::{Words, words_of};
use hph_leb::put_u32;
use std::alloc::Global;
use std::test::Fail;

/// The magic number and the version that every module begins with.
const HEADER: [u8; 8] = [0x00, 0x61, 0x73, 0x6D, 0x01, 0x00, 0x00, 0x00];

/// The section of functions, which has their types' numbers, and that of code.
const FUNCTIONS: u8 = 3;

const CODE: u8 = 10;

/// Where the bytes of a part of the module lie.
#[derive(Clone, Copy)]
struct Part {
    /// The number of its section.
    section: u8,
    start: usize,
    end: usize,
}

/// Keywords that begin a part of a module, each with the number of its section.
const SECTIONS: [(&str, u8); 9] = [
    ("type", 1),
    ("import", 2),
    ("func", FUNCTIONS),
    ("table", 4),
    ("memory", 5),
    ("global", 6),
    ("export", 7),
    ("elem", 9),
    ("data", 11),
];

/// Sections in the order in which they stand.
const ORDER: [u8; 10] = [1, 2, 3, 4, 5, 6, 7, 9, 10, 11];

/// What is imported or exported, each with its byte (5.5.5).
const KINDS: [(&str, u8); 4] = [("func", 0), ("table", 1), ("memory", 2), ("global", 3)];

/// The number beside the word.
fn number_of(table: &[(&str, u8)], word: &str) -> Option<u8> {
    for (name, number) in table {
        if *name == word {
            return Some(*number);
        }
    }
    None
}

/// Takes the name of a kind, and adds its byte.
fn put_kind(words: &mut Words, out: &mut Vec<u8>) -> Result<u8, Fail> {
    let word = words.take().ok_or("no kind")?;
    let kind = number_of(&KINDS, word).ok_or("no kind")?;
    out.push(kind)?;
    Ok(kind)
}

fn put_type(words: &mut Words, out: &mut Vec<u8>) -> Result<(), Fail> {
    words.takes("func");
    out.push(0x60)?;
    words.put_types(out, "param")?;
    words.put_types(out, "result")
}

fn put_table(words: &mut Words, out: &mut Vec<u8>) -> Result<(), Fail> {
    out.push(0x70)?;
    words.put_limits(out)
}

fn put_import(words: &mut Words, out: &mut Vec<u8>) -> Result<(), Fail> {
    words.put_text(out)?;
    words.put_text(out)?;
    match put_kind(words, out)? {
        0 => {
            words.takes("type");
            words.put_number(out)
        }
        1 => put_table(words, out),
        2 => words.put_limits(out),
        _ => words.put_global_type(out),
    }
}

fn put_global(words: &mut Words, out: &mut Vec<u8>) -> Result<(), Fail> {
    words.put_global_type(out)?;
    put_expression(words, out)
}

fn put_export(words: &mut Words, out: &mut Vec<u8>) -> Result<(), Fail> {
    words.put_text(out)?;
    put_kind(words, out)?;
    words.put_number(out)
}

/// Adds the number behind a keyword; where the keyword isn't there, it is 0.
fn put_index(words: &mut Words, out: &mut Vec<u8>, keyword: &str) -> Result<(), Fail> {
    if words.takes(keyword) {
        words.put_number(out)
    } else {
        out.push(0)?;
        Ok(())
    }
}

/// Adds the offset of a segment.
fn put_offset(words: &mut Words, out: &mut Vec<u8>) -> Result<(), Fail> {
    words.takes("offset");
    put_expression(words, out)
}

fn put_element(words: &mut Words, out: &mut Vec<u8>) -> Result<(), Fail> {
    put_index(words, out, "table")?;
    put_offset(words, out)?;
    words.takes("func");
    words.put_numbers(out, 0)
}

fn put_segment(words: &mut Words, out: &mut Vec<u8>) -> Result<(), Fail> {
    put_index(words, out, "memory")?;
    put_offset(words, out)?;
    words.put_text(out)
}

fn put_type_number(words: &mut Words, out: &mut Vec<u8>) -> Result<(), Fail> {
    words.takes("type");
    words.put_number(out)
}

/// Adds the part of this section that is next, behind its keyword.
fn put_part(words: &mut Words, out: &mut Vec<u8>, section: u8) -> Result<(), Fail> {
    match section {
        1 => put_type(words, out),
        2 => put_import(words, out),
        FUNCTIONS => put_type_number(words, out),
        4 => put_table(words, out),
        5 => words.put_limits(out),
        6 => put_global(words, out),
        7 => put_export(words, out),
        9 => put_element(words, out),
        CODE => {
            words.put_locals(out)?;
            put_expression(words, out)
        }
        _ => put_segment(words, out),
    }
}

/// Adds the next part to those before it.
fn add_part(
    words: &mut Words,
    out: &mut Vec<u8>,
    parts: &mut Vec<Part>,
    section: u8,
) -> Result<(), Fail> {
    let start = out.len();
    put_part(words, out, section)?;
    let end = out.len();
    parts.push(Part {
        section,
        start,
        end,
    })?;
    Ok(())
}

/// The parts of a module, whose bytes are put into `out`.
fn add_parts(words: &mut Words, out: &mut Vec<u8>, parts: &mut Vec<Part>) -> Result<(), Fail> {
    for _ in 0..words.words.len() {
        let Some(word) = words.take() else {
            break;
        };
        let section = number_of(&SECTIONS, word).ok_or("a word isn't known")?;
        add_part(words, out, parts, section)?;
        if section == FUNCTIONS {
            add_part(words, out, parts, CODE)?;
        }
    }
    Ok(())
}

/// Adds the bytes of a part, behind their size where they are code.
fn put_content(out: &mut Vec<u8>, bytes: &[u8], part: Part) -> Result<(), Fail> {
    let content = bytes.get(part.start..part.end).ok_or("no content")?;
    if part.section == CODE {
        put_u32(out, u32::try_from(content.len())?)?;
    }
    out.extend_from_slice(content)?;
    Ok(())
}

/// The bytes of the parts of a section, behind their count; nothing where it has none.
fn content_of(alloc: Global, bytes: &[u8], parts: &[Part], section: u8) -> Result<Vec<u8>, Fail> {
    let mut count = 0u32;
    for part in parts {
        if part.section == section {
            count = count.saturating_add(1);
        }
    }
    let mut content = Vec::new(alloc);
    if count > 0 {
        put_u32(&mut content, count)?;
        for part in parts {
            if part.section == section {
                put_content(&mut content, bytes, *part)?;
            }
        }
    }
    Ok(content)
}

/// Adds a section (5.5.2), unless it has nothing.
fn put_section(out: &mut Vec<u8>, section: u8, content: &[u8]) -> Result<(), Fail> {
    if !content.is_empty() {
        out.push(section)?;
        put_u32(out, u32::try_from(content.len())?)?;
        out.extend_from_slice(content)?;
    }
    Ok(())
}

/// The module of these parts.
fn assembled(alloc: Global, bytes: &[u8], parts: &[Part]) -> Result<Vec<u8>, Fail> {
    let mut out = Vec::from_slice(alloc, &HEADER)?;
    for section in ORDER {
        let content = content_of(alloc, bytes, parts, section)?;
        put_section(&mut out, section, &content)?;
    }
    Ok(out)
}

/// The bytes of a module's text.
pub fn bytes_of(alloc: Global, text: &str) -> Result<Vec<u8>, Fail> {
    let all = words_of(alloc, text)?;
    let mut words = Words {
        words: all.as_slice(),
        next: 0,
    };
    let mut bytes = Vec::new(alloc);
    let mut parts = Vec::new(alloc);
    add_parts(&mut words, &mut bytes, &mut parts)?;
    assembled(alloc, &bytes, &parts)
}
