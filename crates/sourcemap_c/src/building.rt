//! Builders.
ghost use Rattle.std.specs.Prelude.{◌≡◌, ◌<◌, ◌≤◌, Err, IfSome, IsSomeAnd, None, Ok, OnErr, OnOk, Some, is_some, length, map as list_map, option_map, slice_get, true};
ghost use Rattle.std.specs.Borrow.{sem};
ghost use Rattle.std.specs.List.{All};
ghost use Rattle.std.specs.Option.{option_copied};
ghost use Rattle.std.specs.Str.{IsUtf8};
ghost use Rattle.sourcemap_builder.specs.Builder.{built, empty_builder, with_token};
ghost use Rattle.sourcemap_errors.specs.Answer.{Changes, Gives};
ghost use Rattle.sourcemap_interning.specs.Interner.{id_for};
ghost use Rattle.sourcemap_c_handles.specs.Handles.{EndsAsBefore, held_in};
ghost use Rattle.sourcemap_c_handles.specs.Layout.{raw_token};
ghost use Rattle.sourcemap_index_model.specs.MapTree.{leaf, regular};
ghost use Rattle.sourcemap_c.specs.Building.{Adds, AddsAll, AddsNot, AddsText, AreAdded, ChangesSource, HasContents, HasId, HasRoot, HasSource, HoldsStep, Ignores, IsStripped, SetsText, Steps, StepsTo, texts_of, with_text, with_tokens};
ghost use Rattle.sourcemap_c.specs.Changing.{FailsAs};
ghost use Rattle.sourcemap_c.specs.Codes.{Answers, Does, NoError, OfLibrary, OfLibraryOrKind, OrNoText, ReturnsValue, text_if};
ghost use Rattle.sourcemap_c.specs.Kinds.{builder_in, tree_in};
ghost use Rattle.sourcemap_c.specs.Replacing.{OrNoPrefix};

use crate::changing::SourceChange;
use crate::codes::{WRONG_KIND, id_if, put_text, text_if, text_in};
use crate::kinds::put_map;
use crate::replacing::texts_in;
use sourcemap::jsontypes::DebugId;
use sourcemap::{DecodedMap, RawToken, Result, SourceMapBuilder};
use sourcemap_c_handles::errors::{ErrorReport, Failure, Outcome, finish};
use sourcemap_c_handles::layout::{IdBytes, MapToken};
use sourcemap_c_handles::{Handle, Held};
use std::alloc::Global;

/// A change of a builder.
#[derive(Clone, Copy)]
enum Step<'a> {
    Root(Option<&'a str>),
    Id(Option<DebugId>),
    Source(u32, &'a str),
    Prefixes(&'a [&'a str]),
    Contents(u32, Option<&'a str>),
    Ignored(u32),
}

/// The texts of a builder that have ids.
#[derive(Clone, Copy)]
enum Texts {
    Sources,
    Names,
}

/// Fills the handle with an empty builder. The name of the generated file is optional.
#[unsafe(no_mangle)]
pub extern "C" fn sm_builder_new(
    alloc: Global,
    builder: &mut Handle,
    has_file: bool,
    file: &[u8],
    error: &mut ErrorReport,
) -> u32
    ensures { Answers result error.old error.new
        (builder_in (held_in builder.new) ≡ Some (empty_builder (text_if has_file file.now)))
        (OrNoText has_file file.now (OfLibrary NoError)) (held_in builder.new ≡ held_in builder.old) }
{
    finish(alloc, new_builder(alloc, builder, has_file, file), error)
}

fn new_builder(alloc: Global, builder: &mut Handle, has_file: bool, file: &[u8]) -> Outcome<()>
    ensures { Does result (builder_in (held_in builder.new) ≡ Some (empty_builder (text_if has_file file.now)))
        (OrNoText has_file file.now (OfLibrary NoError)) (held_in builder.new ≡ held_in builder.old) }
{
    let file = text_if(has_file, file)?;
    let new = SourceMapBuilder::new(alloc, file)?;
    builder.fill(alloc, Held::Builder(new))?;
    Ok(())
}

/// Sets or removes the `sourceRoot`.
#[unsafe(no_mangle)]
pub extern "C" fn sm_builder_set_source_root(
    alloc: Global,
    builder: &mut Handle,
    present: bool,
    text: &[u8],
    error: &mut ErrorReport,
) -> u32
    ensures { SetsText (Answers result error.old error.new) present text.now (HasRoot (text_if present text.now))
        (held_in builder.old) (held_in builder.new) }
{
    finish(alloc, set_source_root(alloc, builder, present, text), error)
}

fn set_source_root(alloc: Global, builder: &mut Handle, present: bool, text: &[u8]) -> Outcome<()>
    ensures { SetsText (Does result) present text.now (HasRoot (text_if present text.now))
        (held_in builder.old) (held_in builder.new) }
{
    let text = text_if(present, text)?;
    step_in(alloc, builder, &Step::Root(text))
}

/// Sets or removes the debug id.
#[unsafe(no_mangle)]
pub extern "C" fn sm_builder_set_debug_id(
    alloc: Global,
    builder: &mut Handle,
    present: bool,
    id: &IdBytes,
    error: &mut ErrorReport,
) -> u32
    ensures { Steps (Answers result error.old error.new) (HasId (text_if present id.now.bytes))
        (held_in builder.old) (held_in builder.new) }
{
    let id = id_if(present, id);
    finish(alloc, step_in(alloc, builder, &Step::Id(id)), error)
}

/// Adds a source and writes its id.
#[unsafe(no_mangle)]
pub extern "C" fn sm_builder_add_source(
    alloc: Global,
    builder: &mut Handle,
    text: &[u8],
    id: &mut u32,
    error: &mut ErrorReport,
) -> u32
    ensures { AddsText (Answers result error.old error.new) Texts.Sources text.now
        (held_in builder.old, id.old) (held_in builder.new, id.new) }
{
    finish(
        alloc,
        add_text(alloc, builder, Texts::Sources, text, id),
        error,
    )
}

/// Adds a name and writes its id.
#[unsafe(no_mangle)]
pub extern "C" fn sm_builder_add_name(
    alloc: Global,
    builder: &mut Handle,
    text: &[u8],
    id: &mut u32,
    error: &mut ErrorReport,
) -> u32
    ensures { AddsText (Answers result error.old error.new) Texts.Names text.now
        (held_in builder.old, id.old) (held_in builder.new, id.new) }
{
    finish(
        alloc,
        add_text(alloc, builder, Texts::Names, text, id),
        error,
    )
}

fn add_text(
    alloc: Global,
    builder: &mut Handle,
    to: Texts,
    text: &[u8],
    id: &mut u32,
) -> Outcome<()>
    ensures { AddsText (Does result) to text.now (held_in builder.old, id.old) (held_in builder.new, id.new) }
{
    let text = text_in(text)?;
    match builder.take(alloc) {
        Some(mut held) => {
            let outcome = add_text_to(&mut held, to, text, id);
            builder.put(held);
            outcome
        }
        None => Err(Failure::WrongKind),
    }
}

fn add_text_to(held: &mut Held, to: Texts, text: &str, id: &mut u32) -> Outcome<()>
    ensures { Does result (Adds to text.now id.new (Some held.old) (Some held.new))
        (AddsNot to text.now (builder_in (Some held.old))) ((held.new ≡ held.old) × (id.new ≡ id.old)) }
{
    match held {
        Held::Builder(builder) => {
            *id = add(builder, to, text)?;
            Ok(())
        }
        _ => Err(Failure::WrongKind),
    }
}

fn add(builder: &mut SourceMapBuilder, to: Texts, text: &str) -> Result<u32>
    ensures id { Gives (λ id. id) result (id_for (texts_of to builder.old) text.now) }
    ensures ok { OnOk result (builder.new ≡ with_text to builder.old text.now) }
    ensures err { OnErr result (builder.new ≡ builder.old) }
{
    match to {
        Texts::Sources => builder.add_source(text),
        Texts::Names => builder.add_name(text),
    }
}

/// Borrows the entry of `sources` with this id, not resolved against `sourceRoot`.
#[unsafe(no_mangle)]
pub extern "C" fn sm_builder_source<'a>(
    builder: &'a mut Handle,
    id: u32,
    text: &mut &'a [u8],
) -> u32
    ensures* after { sem 𝓛 (EndsAsBefore builder.entry) }
    ensures value { ReturnsValue (option_map (λ b. slice_get b.sources id) (builder_in (held_in builder.old)))
        result text.old.now text.new.now }
{
    put_source(builder.get(), id, text)
}

fn put_source<'a>(held: Option<&'a Held>, id: u32, text: &mut &'a [u8]) -> u32
    ensures { ReturnsValue (option_map (λ b. slice_get b.sources id) (builder_in (option_copied held.entry)))
        result text.old.now text.new.now }
{
    match held {
        Some(Held::Builder(builder)) => put_text(builder.get_source(id), text),
        _ => WRONG_KIND,
    }
}

/// Sets the entry of `sources` with this id, not resolved against `sourceRoot`.
#[unsafe(no_mangle)]
pub extern "C" fn sm_builder_set_source(
    alloc: Global,
    builder: &mut Handle,
    id: u32,
    source: &[u8],
    error: &mut ErrorReport,
) -> u32
    ensures { SetsText (Answers result error.old error.new) true source.now (HasSource id source.now)
        (held_in builder.old) (held_in builder.new) }
{
    finish(alloc, set_source(alloc, builder, id, source), error)
}

fn set_source(alloc: Global, builder: &mut Handle, id: u32, source: &[u8]) -> Outcome<()>
    ensures { SetsText (Does result) true source.now (HasSource id source.now)
        (held_in builder.old) (held_in builder.new) }
{
    let source = text_in(source)?;
    step_in(alloc, builder, &Step::Source(id, source))
}

/// Removes from each source the first of `prefixes` that the source starts with.
#[unsafe(no_mangle)]
pub extern "C" fn sm_builder_strip_prefixes(
    alloc: Global,
    builder: &mut Handle,
    prefixes: &[&[u8]],
    error: &mut ErrorReport,
) -> u32
    ensures { let texts = list_map (λ prefix. prefix.now) prefixes.now in
        Answers result error.old error.new
        (All IsUtf8 texts × HoldsStep (IsStripped texts) (held_in builder.old) (held_in builder.new))
        (OrNoPrefix texts (FailsAs (IsStripped texts) (builder_in (held_in builder.old))))
        (held_in builder.new ≡ held_in builder.old) }
{
    finish(alloc, strip_prefixes(alloc, builder, prefixes), error)
}

fn strip_prefixes(alloc: Global, builder: &mut Handle, prefixes: &[&[u8]]) -> Outcome<()>
    ensures { let texts = list_map (λ prefix. prefix.now) prefixes.now in
        Does result
        (All IsUtf8 texts × HoldsStep (IsStripped texts) (held_in builder.old) (held_in builder.new))
        (OrNoPrefix texts (FailsAs (IsStripped texts) (builder_in (held_in builder.old))))
        (held_in builder.new ≡ held_in builder.old) }
{
    match texts_in(alloc, prefixes) {
        Ok(prefixes) => step_in(alloc, builder, &Step::Prefixes(prefixes.as_slice())),
        Err(error) => Err(Failure::Library(error)),
    }
}

/// Sets or removes the contents of a source.
#[unsafe(no_mangle)]
pub extern "C" fn sm_builder_set_contents(
    alloc: Global,
    builder: &mut Handle,
    id: u32,
    present: bool,
    text: &[u8],
    error: &mut ErrorReport,
) -> u32
    ensures { SetsText (Answers result error.old error.new) present text.now
        (HasContents id (text_if present text.now)) (held_in builder.old) (held_in builder.new) }
{
    finish(
        alloc,
        set_contents(alloc, builder, id, present, text),
        error,
    )
}

fn set_contents(
    alloc: Global,
    builder: &mut Handle,
    id: u32,
    present: bool,
    text: &[u8],
) -> Outcome<()>
    ensures { SetsText (Does result) present text.now (HasContents id (text_if present text.now))
        (held_in builder.old) (held_in builder.new) }
{
    let text = text_if(present, text)?;
    step_in(alloc, builder, &Step::Contents(id, text))
}

/// Adds a source to the ignore list.
#[unsafe(no_mangle)]
pub extern "C" fn sm_builder_ignore_source(
    alloc: Global,
    builder: &mut Handle,
    id: u32,
    error: &mut ErrorReport,
) -> u32
    ensures { Steps (Answers result error.old error.new) (Ignores id) (held_in builder.old) (held_in builder.new) }
{
    finish(alloc, step_in(alloc, builder, &Step::Ignored(id)), error)
}

fn step_in(alloc: Global, handle: &mut Handle, step: &Step<'_>) -> Outcome<()>
    ensures { Steps (Does result) (StepsTo step.now) (held_in handle.old) (held_in handle.new) }
{
    match handle.take(alloc) {
        Some(mut held) => {
            let outcome = step_held(&mut held, step);
            handle.put(held);
            outcome
        }
        None => Err(Failure::WrongKind),
    }
}

fn step_held(held: &mut Held, step: &Step<'_>) -> Outcome<()>
    ensures { Does result (HoldsStep (StepsTo step.now) (Some held.old) (Some held.new))
        (FailsAs (StepsTo step.now) (builder_in (Some held.old))) (held.new ≡ held.old) }
{
    match held {
        Held::Builder(builder) => step_builder(builder, step),
        _ => Err(Failure::WrongKind),
    }
}

fn step_builder(builder: &mut SourceMapBuilder, step: &Step<'_>) -> Outcome<()>
    ensures { Does result (StepsTo step.now builder.old (Ok builder.new))
        (λ failure. StepsTo step.now builder.old (Err failure)) (builder.new ≡ builder.old) }
{
    match step {
        Step::Root(root) => builder.set_source_root(*root)?,
        Step::Id(id) => builder.set_debug_id(*id),
        Step::Source(id, source) => {
            return change_source(builder, *id, &SourceChange::Text(source));
        }
        Step::Prefixes(prefixes) => builder.strip_prefixes(*prefixes)?,
        Step::Contents(id, contents) => {
            return change_source(builder, *id, &SourceChange::Contents(*contents));
        }
        Step::Ignored(id) => return change_source(builder, *id, &SourceChange::Ignored),
    }
    Ok(())
}

fn change_source(builder: &mut SourceMapBuilder, id: u32, change: &SourceChange<'_>) -> Outcome<()>
    ensures { Does result (ChangesSource id change.now builder.old (Ok builder.new))
        (λ failure. ChangesSource id change.now builder.old (Err failure)) (builder.new ≡ builder.old) }
{
    if builder.get_source(id).is_none() {
        return Err(Failure::Absent);
    }
    match change {
        SourceChange::Text(source) => builder.set_source(id, source)?,
        SourceChange::Contents(contents) => builder.set_source_contents(id, *contents)?,
        SourceChange::Ignored => builder.add_to_ignore_list(id)?,
    }
    Ok(())
}

/// Adds tokens and returns how many were added: all of them, fewer if memory runs out, or 0 if the
/// handle holds no builder.
#[unsafe(no_mangle)]
pub extern "C" fn sm_builder_add_tokens(
    alloc: Global,
    builder: &mut Handle,
    tokens: &[MapToken],
    error: &mut ErrorReport,
) -> usize
    ensures added { IfSome (builder_in (held_in builder.old))
        (λ b. builder_in (held_in builder.new) ≡ Some (with_tokens b tokens.now result)) }
    ensures other { builder_in (held_in builder.old) ≡ None
        → (result ≡ 0) × (held_in builder.new ≡ held_in builder.old) }
    ensures bound { result ≤ length tokens.now }
    ensures all { AddsAll (builder_in (held_in builder.old)) (length tokens.now) result error.old error.new }
{
    let (count, outcome) = add_tokens(alloc, builder, tokens);
    finish(alloc, outcome, error);
    count
}

fn add_tokens(alloc: Global, builder: &mut Handle, tokens: &[MapToken]) -> (usize, Outcome<()>)
    ensures added { IfSome (builder_in (held_in builder.old))
        (λ b. builder_in (held_in builder.new) ≡ Some (with_tokens b tokens.now result.0)) }
    ensures other { builder_in (held_in builder.old) ≡ None
        → (result.0 ≡ 0) × (held_in builder.new ≡ held_in builder.old) }
    ensures bound { result.0 ≤ length tokens.now }
    ensures all { AreAdded (builder_in (held_in builder.old)) (length tokens.now) result.0 result.1 }
{
    match builder.take(alloc) {
        Some(mut held) => {
            let added = add_tokens_to(&mut held, tokens);
            builder.put(held);
            added
        }
        None => (0, Err(Failure::WrongKind)),
    }
}

fn add_tokens_to(held: &mut Held, tokens: &[MapToken]) -> (usize, Outcome<()>)
    ensures added { IfSome (builder_in (Some held.old))
        (λ b. builder_in (Some held.new) ≡ Some (with_tokens b tokens.now result.0)) }
    ensures other { builder_in (Some held.old) ≡ None → (result.0 ≡ 0) × (held.new ≡ held.old) }
    ensures bound { result.0 ≤ length tokens.now }
    ensures all { AreAdded (builder_in (Some held.old)) (length tokens.now) result.0 result.1 }
{
    match held {
        Held::Builder(builder) => add_each(builder, tokens),
        _ => (0, Err(Failure::WrongKind)),
    }
}

fn add_each(builder: &mut SourceMapBuilder, tokens: &[MapToken]) -> (usize, Outcome<()>)
    ensures added { builder.new ≡ with_tokens builder.old tokens.now result.0 }
    ensures bound { result.0 ≤ length tokens.now }
    ensures all { AreAdded (Some builder.old) (length tokens.now) result.0 result.1 }
{
    let mut count: usize = 0;
    for token in tokens {
        if let Err(error) = add_token(builder, *token) {
            return (count, Err(Failure::Library(error)));
        }
        count += 1;
    }
    (count, Ok(()))
}

fn add_token(builder: &mut SourceMapBuilder, token: MapToken) -> Result<()>
    ensures { Changes result builder.old builder.new (with_token builder.old (raw_token token)) }
{
    let RawToken {
        dst_line,
        dst_col,
        src_line,
        src_col,
        src_id,
        name_id,
        is_range,
    } = token.to_raw();
    builder.add_raw(
        dst_line,
        dst_col,
        src_line,
        src_col,
        Some(src_id),
        Some(name_id),
        is_range,
    )?;
    Ok(())
}

/// Fills `map` with the regular map that was built. If the handle `builder` holds a builder, the
/// handle is empty afterwards, also after an error. Otherwise the handle is unchanged.
#[unsafe(no_mangle)]
pub extern "C" fn sm_builder_finish(
    alloc: Global,
    builder: &mut Handle,
    map: &mut Handle,
    error: &mut ErrorReport,
) -> u32
    ensures built { Answers result error.old error.new (IsSomeAnd (builder_in (held_in builder.old))
        (λ b. tree_in (held_in map.new) ≡ Some (leaf (regular (built b)))))
        (OfLibraryOrKind NoError (builder_in (held_in builder.old) ≡ None))
        (held_in map.new ≡ held_in map.old) }
    ensures emptied { IfSome (builder_in (held_in builder.old)) (λ _. held_in builder.new ≡ None) }
    ensures other { builder_in (held_in builder.old) ≡ None → held_in builder.new ≡ held_in builder.old }
{
    finish(alloc, finish_builder(alloc, builder, map), error)
}

fn finish_builder(alloc: Global, builder: &mut Handle, map: &mut Handle) -> Outcome<()>
    ensures built { Does result (IsSomeAnd (builder_in (held_in builder.old))
        (λ b. tree_in (held_in map.new) ≡ Some (leaf (regular (built b)))))
        (OfLibraryOrKind NoError (builder_in (held_in builder.old) ≡ None))
        (held_in map.new ≡ held_in map.old) }
    ensures emptied { IfSome (builder_in (held_in builder.old)) (λ _. held_in builder.new ≡ None) }
    ensures other { builder_in (held_in builder.old) ≡ None → held_in builder.new ≡ held_in builder.old }
{
    match take_builder(alloc, builder) {
        Some(builder) => put_map(alloc, map, DecodedMap::Regular(builder.into_sourcemap()?)),
        None => Err(Failure::WrongKind),
    }
}

fn take_builder(alloc: Global, handle: &mut Handle) -> Option<SourceMapBuilder>
    ensures value { result ≡ builder_in (held_in handle.old) }
    ensures emptied { IfSome (builder_in (held_in handle.old)) (λ _. held_in handle.new ≡ None) }
    ensures other { builder_in (held_in handle.old) ≡ None → held_in handle.new ≡ held_in handle.old }
{
    if !holds_builder(handle) {
        return None;
    }
    match Box::into_inner(handle.take(alloc)?) {
        Held::Builder(builder) => Some(builder),
        _ => None,
    }
}

fn holds_builder(handle: &mut Handle) -> bool
    ensures builder { result ≡ is_some (builder_in (held_in handle.old)) }
    ensures kept { held_in handle.new ≡ held_in handle.old }
{
    matches!(handle.get(), Some(Held::Builder(_)))
}
