//! Laws of files that are written: what a reader reads of them.
ghost use Rattle.std.specs.Prelude.{◌≡◌, ℕ, ◌<◌, Ok, length, slice_index};
ghost use Rattle.sourcemap_tokens.specs.Items.{item_at};
ghost use Rattle.sourcemap_tokens.specs.Tokens.{AreInOrder};
ghost use Rattle.sourcemap_compiled.specs.Blocks.{compiled_tokens, scope_number};
ghost use Rattle.sourcemap_compiled.specs.Layout.{IsAccepted, compiled_debug_id, content_count, name_count};
ghost use Rattle.sourcemap_compiled.specs.Layout.{scope_count, source_count, token_count};
ghost use Rattle.sourcemap_compiled.specs.Lookup.{IsInOrder, compiled_meaning};
ghost use Rattle.sourcemap_compiled.specs.Texts.{compiled_contents, compiled_file, compiled_name, compiled_source};
ghost use Rattle.sourcemap_compiled.specs.Texts.{scope_text};
ghost use Rattle.sourcemap_compiled_write.specs.File.{AreWritable, file_bytes};
ghost use Rattle.sourcemap_compiled_write.specs.Meaning.{parts_meaning};
ghost use Rattle.sourcemap_compiled_write.specs.Parts.{Parts};

/// A law: a file that is written is accepted.
pub fn written_file_is_accepted()
    ensures { (p : Parts) → AreWritable p → IsAccepted (file_bytes p) }
{}

/// A law: the tokens and their scopes are read as they were written. If the tokens are sorted, the
/// file is in order.
pub fn written_tokens_are_read()
    ensures tokens { (p : Parts) → AreWritable p → compiled_tokens (file_bytes p) ≡ p.tokens }
    ensures scopes { (p : Parts) → AreWritable p → (index : ℕ) → index < length p.tokens
        → scope_number (file_bytes p) index ≡ slice_index p.scopes index }
    ensures order { (p : Parts) → AreWritable p → AreInOrder p.tokens → IsInOrder (file_bytes p) }
{}

/// A law: the texts and the debug id are read as they were written.
pub fn written_texts_are_read()
    ensures sources { (p : Parts) → AreWritable p → (id : ℕ)
        → compiled_source (file_bytes p) id ≡ Ok (item_at p.sources id) }
    ensures names { (p : Parts) → AreWritable p → (id : ℕ)
        → compiled_name (file_bytes p) id ≡ Ok (item_at p.names id) }
    ensures scopes { (p : Parts) → AreWritable p → (id : ℕ)
        → scope_text (file_bytes p) id ≡ Ok (item_at p.scope_names id) }
    ensures contents { (p : Parts) → AreWritable p → (id : ℕ)
        → compiled_contents (file_bytes p) id ≡ Ok (item_at p.contents id) }
    ensures file { (p : Parts) → AreWritable p → compiled_file (file_bytes p) ≡ Ok p.file }
    ensures id { (p : Parts) → AreWritable p → compiled_debug_id (file_bytes p) ≡ p.debug_id }
{}

/// A law: the counts are those of the parts.
pub fn written_counts_are_read()
    ensures tokens { (p : Parts) → AreWritable p → token_count (file_bytes p) ≡ length p.tokens }
    ensures sources { (p : Parts) → AreWritable p → source_count (file_bytes p) ≡ length p.sources }
    ensures names { (p : Parts) → AreWritable p → name_count (file_bytes p) ≡ length p.names }
    ensures scopes { (p : Parts) → AreWritable p → scope_count (file_bytes p) ≡ length p.scope_names }
    ensures contents { (p : Parts) → AreWritable p → content_count (file_bytes p) ≡ length p.contents }
{}

/// A law: each generated position means in the file what it means in the parts.
pub fn written_file_means_its_parts()
    ensures { (p : Parts) → AreWritable p → (position : ℕ × ℕ)
        → compiled_meaning (file_bytes p) position ≡ parts_meaning p position }
{}
