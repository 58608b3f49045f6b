//! Makes tokens from rows. A row is a short form of a token, for tables of tests.
use sourcemap_errors::errors::Result;
use sourcemap_tokens::tokens::RawToken;
use std::alloc::Global;

/// Generated line and column, then source id with original line and column, name id, range flag.
pub type Row = ((u32, u32), (u32, u32, u32), u32, bool);

/// The token of a row.
pub fn token(row: Row) -> RawToken {
    let ((dst_line, dst_col), (src_id, src_line, src_col), name_id, is_range) = row;
    RawToken {
        dst_line,
        dst_col,
        src_line,
        src_col,
        src_id,
        name_id,
        is_range,
    }
}

/// The tokens of the rows, in order. The only error is `OutOfMemory`.
pub fn tokens(alloc: Global, rows: &[Row]) -> Result<Vec<RawToken>> {
    let mut tokens = Vec::new(alloc);
    for row in rows {
        tokens.push(token(*row))?;
    }
    Ok(tokens)
}
