// Files that are written from tokens and texts.
use crate::texts::lookup_text;
use sourcemap_compiled_write::errors::WriteError;
use sourcemap_compiled_write::parts::FileParts;
use sourcemap_compiled_write::write::write_file;
use sourcemap_test_support::checks::{Checked, check};
use sourcemap_tokens::tokens::{NO_ID, RawToken};
use std::alloc::{AllocError, Global};

// A line, a column, and the wanted text of the closest of 4,096 tokens.
static LOOKUPS: [(u32, u32, &str); 12] = [
    (0, 0, "0 0:0 - 0:7 - -"),
    (0, 188, "62 0:186 - 62:7 - -"),
    (0, 189, "63 0:189 - 63:7 - -"),
    (0, 191, "63 0:189 - 63:7 - -"),
    (0, 192, "64 0:192 - 64:7 - -"),
    (0, 4294967295, "99 0:297 - 99:7 - -"),
    (1, 0, "100 1:0 - 100:7 - -"),
    (20, 143, "2047 20:141 - 2047:7 - -"),
    (20, 144, "2048 20:144 - 2048:7 - -"),
    (40, 284, "4094 40:282 - 4094:7 - -"),
    (40, 285, "4095 40:285 - 4095:7 - -"),
    (4294967295, 0, "4095 40:285 - 4095:7 - -"),
];

// 64 blocks: a hundred tokens a line, one at each third column.
fn many_tokens(alloc: Global) -> Result<Vec<RawToken>, AllocError> {
    let mut tokens = Vec::new(alloc);
    for number in 0..4096 {
        tokens.push(RawToken {
            dst_line: number / 100,
            dst_col: number % 100 * 3,
            src_line: number,
            src_col: 7,
            src_id: NO_ID,
            name_id: NO_ID,
            is_range: false,
        })?;
    }
    Ok(tokens)
}

fn parts_of<'a>(tokens: &'a [RawToken], contents: &'a [Option<&'a str>]) -> FileParts<'a> {
    FileParts {
        tokens,
        scopes: &[],
        sources: &[],
        names: &[],
        scope_names: &[],
        file: None,
        contents,
        debug_id: None,
    }
}

fn found(alloc: Global, line: u32, column: u32) -> Result<String, WriteError> {
    let tokens = many_tokens(alloc)?;
    let file = write_file(alloc, &parts_of(&tokens, &[]))?;
    Ok(lookup_text(alloc, &file, line, column)?)
}

#[test]
fn many_blocks(rt: HostRuntime) -> Checked {
    for (line, column, want) in &LOOKUPS {
        check("a token", found(rt.alloc(), *line, *column), want)?;
    }
    Ok(())
}

fn many_times<'a>(
    alloc: Global,
    text: &'a str,
    times: usize,
) -> Result<Vec<Option<&'a str>>, AllocError> {
    let mut texts = Vec::new(alloc);
    for _ in 0..times {
        texts.push(Some(text))?;
    }
    Ok(texts)
}

// What comes of a text that a map has so many times.
fn written(alloc: Global, text: &str, times: usize) -> Result<String, WriteError> {
    let contents = many_times(alloc, text, times)?;
    match write_file(alloc, &parts_of(&[], &contents)) {
        Ok(_) => Ok(String::from_str(alloc, "written")?),
        Err(WriteError::TooLarge) => Ok(String::from_str(alloc, "too large")?),
        Err(WriteError::OutOfMemory) => Err(WriteError::OutOfMemory),
    }
}

#[test]
fn texts_past_the_limit(rt: HostRuntime) -> Checked {
    let text = "x".repeat(rt.alloc(), 1048575)?;
    check("1 MB", written(rt.alloc(), &text, 1), "written")?;
    check("4 GB", written(rt.alloc(), &text, 4096), "too large")
}
