//! The blocks of the file: bodies, starts and heads.
ghost use Rattle.std.specs.Prelude.{◌≡◌, ℕ, ◌+◌, ◌*◌, ◌≤◌, ◌<◌, ◌^◌, ◌++◌, OnOk, length, slice_index, vec_len};
ghost use Rattle.std.specs.List.{flat_map};
ghost use Rattle.byteorder.specs.Endian.{little_bytes};
ghost use Rattle.sourcemap_compiled.specs.Numbers.{position_number};
ghost use Rattle.sourcemap_compiled_write.specs.Blocks.{bases, block_of, body_bytes, field_numbers, head_bytes};
ghost use Rattle.sourcemap_compiled_write.specs.Blocks.{start_bytes, width_bytes};
ghost use Rattle.sourcemap_compiled_write.specs.Packing.{padded, token_values};

use crate::packing::{base_of, numbers_of, push_field, width_of};
use sourcemap_tokens::tokens::RawToken;
use std::alloc::AllocError;

/// Returns the items of a block: 64, or what is left.
pub(crate) fn block_of<T>(items: &[T], block: usize) -> &[T]
    requires { block < 2 ^ 40 }
    ensures { result.now ≡ block_of items.now block }
{
    let from = (64 * block).min(items.len());
    let to = (64 * block + 64).min(items.len());
    &items[from..to]
}

/// Appends numbers of four bytes each.
pub(crate) fn push_numbers(out: &mut Vec<u8>, numbers: &[u32]) -> Result<(), AllocError>
    ensures { OnOk result (out.new.items ≡ out.old.items ++ flat_map (little_bytes 4) numbers.now) }
{
    for number in numbers {
        out.extend_from_slice(&number.to_le_bytes())?;
    }
    Ok(())
}

fn position_number(line: u32, column: u32) -> u64
    ensures { result ≡ position_number (line, column) }
{
    (u64::from(line) << 32) + u64::from(column)
}

/// Appends the start of a block.
pub(crate) fn push_start(starts: &mut Vec<u8>, tokens: &[RawToken]) -> Result<(), AllocError>
    requires { 0 < length tokens.now }
    ensures { OnOk result (starts.new.items ≡ starts.old.items ++ start_bytes tokens.now) }
{
    let start = position_number(tokens[0].dst_line, tokens[0].dst_col);
    starts.extend_from_slice(&start.to_le_bytes())?;
    Ok(())
}

/// Returns the bases of the fields of a block.
fn bases_of(tokens: &[RawToken]) -> [u32; 8]
    requires { 0 < length tokens.now }
    ensures { result ≡ bases tokens.now }
{
    let line = tokens[0].dst_line;
    [
        line,
        base_of(tokens, 1),
        base_of(tokens, 2),
        base_of(tokens, 3),
        base_of(tokens, 4),
        base_of(tokens, 5),
        0,
        0,
    ]
}

/// Returns scopes as 64 numbers.
fn scope_numbers(scopes: &[u32]) -> [u32; 64]
    requires { length scopes.now ≤ 64 }
    ensures { result ≡ padded scopes.now }
{
    let mut numbers = [0; 64];
    numbers[..scopes.len()].copy_from_slice(scopes);
    numbers
}

/// Returns the numbers of a field of a block.
fn field_numbers(tokens: &[RawToken], scopes: &[u32], field: usize, base: u32) -> [u32; 64]
    requires few { length tokens.now ≤ 64 }
    requires few_scopes { length scopes.now ≤ 64 }
    requires field { field < 8 }
    requires base { base ≡ slice_index (bases tokens.now) field }
    ensures numbers { result ≡ field_numbers tokens.now scopes.now field }
    ensures small { field < 7 → (k : ℕ) → slice_index (token_values tokens.now field) k < 2 ^ 32 }
{
    match field {
        0 => numbers_of(tokens, 0, base),
        1 => numbers_of(tokens, 1, base),
        2 => numbers_of(tokens, 2, base),
        3 => numbers_of(tokens, 3, base),
        4 => numbers_of(tokens, 4, base),
        5 => numbers_of(tokens, 5, base),
        6 => numbers_of(tokens, 6, base),
        _ => scope_numbers(scopes),
    }
}

/// Appends the fields of a block to `out`, and their widths to `heads`.
fn push_fields(
    out: &mut Vec<u8>,
    heads: &mut Vec<u8>,
    tokens: &[RawToken],
    scopes: &[u32],
    field_bases: &[u32; 8],
) -> Result<(), AllocError>
    requires few { length tokens.now ≤ 64 }
    requires few_scopes { length scopes.now ≤ 64 }
    requires bases { field_bases.now ≡ bases tokens.now }
    ensures body { OnOk result (out.new.items ≡ out.old.items ++ body_bytes tokens.now scopes.now) }
    ensures widths { OnOk result (heads.new.items ≡ heads.old.items ++ width_bytes tokens.now scopes.now) }
    ensures small { OnOk result
        ((field k : ℕ) → field < 7 → slice_index (token_values tokens.now field) k < 2 ^ 32) }
{
    for field in 0..8 {
        let numbers = field_numbers(tokens, scopes, field, field_bases[field]);
        let width = width_of(&numbers);
        push_field(out, &numbers, width as usize)?;
        heads.extend_from_slice(&[width as u8])?;
    }
    Ok(())
}

/// Appends the body of a block to `out`, and its head to `heads`.
pub(crate) fn push_block(
    out: &mut Vec<u8>,
    heads: &mut Vec<u8>,
    tokens: &[RawToken],
    scopes: &[u32],
) -> Result<(), AllocError>
    requires some { 0 < length tokens.now }
    requires few { length tokens.now ≤ 64 }
    requires few_scopes { length scopes.now ≤ 64 }
    requires near { length out.old.items < 2 ^ 32 }
    ensures body { OnOk result (out.new.items ≡ out.old.items ++ body_bytes tokens.now scopes.now) }
    ensures head { OnOk result (heads.new.items
        ≡ heads.old.items ++ head_bytes (length out.old.items) tokens.now scopes.now) }
    ensures small { OnOk result
        ((field k : ℕ) → field < 7 → slice_index (token_values tokens.now field) k < 2 ^ 32) }
{
    let field_bases = bases_of(tokens);
    push_numbers(heads, &[out.len() as u32])?;
    push_numbers(heads, &field_bases[1..6])?;
    push_fields(out, heads, tokens, scopes, &field_bases)?;
    Ok(())
}
