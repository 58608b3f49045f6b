//! Writes the file of a compiled map.
ghost use Rattle.std.specs.Prelude.{◌≡◌, ℕ, ◌+◌, ◌*◌, ◌<◌, ◌≤◌, ◌^◌, ◌++◌, IfErr, IfOk, IfSome, OnOk, length, min, []};
ghost use Rattle.std.specs.Prelude.{drop, slice_index};
ghost use Rattle.sourcemap_compiled_write.specs.File.{AreTooLarge, AreWritable, blocks_of, bodies_of, debug_id_bytes};
ghost use Rattle.sourcemap_compiled_write.specs.File.{debug_id_number, file_bytes, header_bytes, heads_of, length_of};
ghost use Rattle.sourcemap_compiled_write.specs.File.{rest_length, starts_of, tables_length, tables_offset, texts_of};
ghost use Rattle.sourcemap_compiled_write.specs.Packing.{token_values};
ghost use Rattle.sourcemap_compiled_write.specs.Stored.{parts_value};
ghost use Rattle.sourcemap_compiled_write.specs.Texts.{table_bytes, texts_bytes};
ghost use Rattle.sourcemap_compiled_write.specs.declared.errors.WriteError.TheVariants.{TooLarge};

use crate::blocks::{block_of, push_block, push_numbers, push_start};
use crate::errors::WriteError;
use crate::parts::FileParts;
use crate::texts::{add_sizes, push_offsets, push_texts};
use sourcemap_compiled::map::{COMPILED_MAGIC, COMPILED_VERSION};
use std::alloc::{AllocError, Global};

// A file and a list of tokens must be shorter than this.
const LIMIT: u64 = 4294967296;

/// Writes the file of a compiled map. The tokens may be in any order, but lookups in the file need
/// sorted ones. The error is `TooLarge` or `OutOfMemory`.
pub fn write_file(alloc: Global, parts: &FileParts<'_>) -> Result<Vec<u8>, WriteError>
    ensures file { IfOk result (λ out. out.items ≡ file_bytes (parts_value parts.now)) }
    ensures writable { IfOk result (λ _. AreWritable (parts_value parts.now)) }
    ensures refused { IfErr result (λ e. e ≡ TooLarge → AreTooLarge (parts_value parts.now)) }
{
    if parts.tokens.len() as u64 >= LIMIT {
        return Err(WriteError::TooLarge);
    }
    small_scopes(parts.scopes);
    let id = id_bytes(parts.debug_id);
    let rest = rest_length(parts);
    if rest >= LIMIT - 64 {
        return Err(WriteError::TooLarge);
    }
    let mut out = Vec::new(alloc);
    push_numbers(&mut out, &[0; 16])?;
    let tables = push_blocks(alloc, &mut out, parts, rest)?;
    let texts = tables + tables_length(parts) as u32;
    push_table(&mut out, parts, texts)?;
    push_all_texts(&mut out, parts)?;
    let size = tables + rest as u32;
    let header = header_of(alloc, parts, &id, size, tables)?;
    put_header(out.as_mut_slice(), header.as_slice());
    Ok(out)
}

// prover: the scopes are numbers of 32 bits.
fn small_scopes(scopes: &[u32])
    ensures { (k : ℕ) → slice_index scopes.now k < 2 ^ 32 }
{}

/// Returns the number of texts, but at most 18446744073709551615.
fn text_count(parts: &FileParts<'_>) -> u64
    ensures { result ≡ min (length (texts_of (parts_value parts.now))) 18446744073709551615 }
{
    (parts.sources.len() as u64)
        .saturating_add(parts.names.len() as u64)
        .saturating_add(parts.scope_names.len() as u64)
        .saturating_add(parts.contents.len() as u64)
        .saturating_add(1)
}

/// Returns how many bytes the tables take, but at most 18446744073709551615.
fn tables_length(parts: &FileParts<'_>) -> u64
    requires { length parts.now.tokens.now < 2 ^ 32 }
    ensures { result ≡ min (tables_length (parts_value parts.now)) 18446744073709551615 }
{
    let blocks = (parts.tokens.len() as u64).div_ceil(64);
    let offsets = text_count(parts).saturating_add(1).saturating_mul(4);
    offsets.saturating_add(40 * blocks)
}

/// Returns how many bytes the tables and the texts take, but at most 18446744073709551615.
fn rest_length(parts: &FileParts<'_>) -> u64
    requires { length parts.now.tokens.now < 2 ^ 32 }
    ensures { result ≡ min (rest_length (parts_value parts.now)) 18446744073709551615 }
{
    let sources = add_sizes(tables_length(parts), parts.sources);
    let names = add_sizes(sources, parts.names);
    let scopes = add_sizes(names, parts.scope_names);
    let file = add_sizes(scopes, &[parts.file]);
    add_sizes(file, parts.contents)
}

/// Appends the bodies of all blocks to `out`, and their starts and heads to the tables. `rest` is
/// how many bytes the tables and the texts take.
fn push_bodies(
    out: &mut Vec<u8>,
    starts: &mut Vec<u8>,
    heads: &mut Vec<u8>,
    parts: &FileParts<'_>,
    rest: u64,
) -> Result<(), WriteError>
    requires header { length out.old.items ≡ 64 }
    requires starts { starts.old.items ≡ [] }
    requires heads { heads.old.items ≡ [] }
    requires few { length parts.now.tokens.now < 2 ^ 32 }
    requires room { 64 + rest < 2 ^ 32 }
    ensures bodies { OnOk result (out.new.items
        ≡ out.old.items ++ bodies_of (parts_value parts.now) (blocks_of (parts_value parts.now))) }
    ensures starts { OnOk result (starts.new.items
        ≡ starts_of (parts_value parts.now) (blocks_of (parts_value parts.now))) }
    ensures heads { OnOk result (heads.new.items
        ≡ heads_of (parts_value parts.now) (blocks_of (parts_value parts.now))) }
    ensures room { OnOk result (tables_offset (parts_value parts.now) + rest < 2 ^ 32) }
    ensures small { OnOk result
        ((field k : ℕ) → field < 7 → slice_index (token_values parts.now.tokens.now field) k < 2 ^ 32) }
    ensures refused { IfErr result
        (λ e. e ≡ TooLarge → 2 ^ 32 ≤ tables_offset (parts_value parts.now) + rest) }
{
    for block in 0..parts.tokens.len().div_ceil(64) {
        let tokens = block_of(parts.tokens, block);
        push_start(starts, tokens)?;
        push_block(out, heads, tokens, block_of(parts.scopes, block))?;
        if out.len() as u64 + rest >= LIMIT {
            return Err(WriteError::TooLarge);
        }
    }
    Ok(())
}

/// Appends bodies, starts and heads to the header. Returns where the starts begin.
fn push_blocks(
    alloc: Global,
    out: &mut Vec<u8>,
    parts: &FileParts<'_>,
    rest: u64,
) -> Result<u32, WriteError>
    requires header { length out.old.items ≡ 64 }
    requires few { length parts.now.tokens.now < 2 ^ 32 }
    requires room { 64 + rest < 2 ^ 32 }
    ensures blocks { OnOk result (out.new.items ≡ out.old.items
        ++ (bodies_of (parts_value parts.now) (blocks_of (parts_value parts.now))
        ++ (starts_of (parts_value parts.now) (blocks_of (parts_value parts.now))
        ++ heads_of (parts_value parts.now) (blocks_of (parts_value parts.now))))) }
    ensures tables { IfOk result (λ tables. tables ≡ tables_offset (parts_value parts.now)) }
    ensures room { OnOk result (tables_offset (parts_value parts.now) + rest < 2 ^ 32) }
    ensures small { OnOk result
        ((field k : ℕ) → field < 7 → slice_index (token_values parts.now.tokens.now field) k < 2 ^ 32) }
    ensures refused { IfErr result
        (λ e. e ≡ TooLarge → 2 ^ 32 ≤ tables_offset (parts_value parts.now) + rest) }
{
    let mut starts = Vec::new(alloc);
    let mut heads = Vec::new(alloc);
    push_bodies(out, &mut starts, &mut heads, parts, rest)?;
    let tables = out.len() as u32;
    out.extend_from_slice(starts.as_slice())?;
    out.extend_from_slice(heads.as_slice())?;
    Ok(tables)
}

/// Appends the text table, whose first text starts at `offset`.
fn push_table(out: &mut Vec<u8>, parts: &FileParts<'_>, offset: u32) -> Result<(), AllocError>
    requires { offset + length (texts_bytes (texts_of (parts_value parts.now))) < 2 ^ 32 }
    ensures { OnOk result (out.new.items ≡ out.old.items ++ table_bytes offset (texts_of (parts_value parts.now))) }
{
    let names = push_offsets(out, offset, parts.sources)?;
    let scopes = push_offsets(out, names, parts.names)?;
    let file = push_offsets(out, scopes, parts.scope_names)?;
    let contents = push_offsets(out, file, &[parts.file])?;
    let end = push_offsets(out, contents, parts.contents)?;
    push_numbers(out, &[end])?;
    Ok(())
}

/// Appends the texts.
fn push_all_texts(out: &mut Vec<u8>, parts: &FileParts<'_>) -> Result<(), AllocError>
    ensures { OnOk result (out.new.items ≡ out.old.items ++ texts_bytes (texts_of (parts_value parts.now))) }
{
    push_texts(out, parts.sources)?;
    push_texts(out, parts.names)?;
    push_texts(out, parts.scope_names)?;
    push_texts(out, &[parts.file])?;
    push_texts(out, parts.contents)?;
    Ok(())
}

fn id_number(id: Option<[u8; 16]>) -> u32
    ensures { result ≡ debug_id_number id }
{
    match id {
        Some(_) => 1,
        None => 0,
    }
}

fn id_bytes(id: Option<[u8; 16]>) -> [u8; 16]
    ensures bytes { result ≡ debug_id_bytes id }
    ensures whole { IfSome id (λ id. length id ≡ 16) }
{
    match id {
        Some(id) => id,
        None => [0; 16],
    }
}

/// Returns the header of a file of `size` bytes whose tables begin at `tables`.
fn header_of(
    alloc: Global,
    parts: &FileParts<'_>,
    id: &[u8],
    size: u32,
    tables: u32,
) -> Result<Vec<u8>, AllocError>
    requires id { id.now ≡ debug_id_bytes parts.now.debug_id }
    requires few { length parts.now.tokens.now < 2 ^ 32 }
    requires few_texts { length (texts_of (parts_value parts.now)) < 2 ^ 32 }
    requires size { size ≡ length_of (parts_value parts.now) }
    requires tables { tables ≡ tables_offset (parts_value parts.now) }
    ensures { IfOk result (λ header. header.items ≡ header_bytes (parts_value parts.now)) }
{
    let mut header = Vec::new(alloc);
    push_numbers(
        &mut header,
        &[
            COMPILED_MAGIC,
            COMPILED_VERSION,
            size,
            parts.tokens.len() as u32,
            parts.sources.len() as u32,
            parts.names.len() as u32,
            parts.contents.len() as u32,
            id_number(parts.debug_id),
        ],
    )?;
    header.extend_from_slice(id)?;
    push_numbers(&mut header, &[tables, parts.scope_names.len() as u32, 0, 0])?;
    Ok(header)
}

/// Puts the header over the first bytes of the file.
fn put_header(file: &mut [u8], header: &[u8])
    requires whole { length header.now ≡ 64 }
    requires room { 64 ≤ length file.old }
    ensures { file.new ≡ header.now ++ drop 64 file.old }
{
    file[..64].copy_from_slice(header);
}
