//! The key and the sentence of what looks wrong.
ghost use Rattle.std.specs.Prelude.{◌≡◌, ◌++◌, IsOkUnless, OnOk, string_bytes};
ghost use Rattle.sourcemap_errors.specs.declared.errors.Error.TheVariants.{OutOfMemory};
ghost use Rattle.sourcemap_check_print.specs.Suspicions.{contents_sentence, generated_sentence, item_key, item_sentence, range_sentence, shift_sentence, suspect_key, suspicion_sentence, token_sentence};

use crate::places::{push, push_indexed};
use sourcemap_check_lists::contents::ContentsDoubt;
use sourcemap_check_lists::lists::ListDoubt;
use sourcemap_check_order::ranges::RangeDoubt;
use sourcemap_check_suspicious::shifted::Shifted;
use sourcemap_check_suspicious::suspects::{Suspect, Suspicion};
use sourcemap_check_texts::generated::GeneratedDoubt;
use sourcemap_check_texts::tokens::Doubt;
use sourcemap_errors::errors::Result;

fn token_sentence(doubt: Doubt) -> &'static str
    ensures { result.now ≡ token_sentence doubt }
{
    match doubt {
        Doubt::TwoOriginals => "the token before is at the same position, with another original",
        Doubt::PastSource => "the source has no such line",
        Doubt::PastLine => "the original line has fewer columns",
        Doubt::WithinPair => "the original column is in the middle of a surrogate pair",
        Doubt::OtherName => "the name does not stand at the original position",
    }
}

fn item_sentence(doubt: ListDoubt) -> &'static str
    ensures { result.now ≡ item_sentence doubt }
{
    match doubt {
        ListDoubt::UnusedSource => "no token has the source",
        ListDoubt::UnusedName => "no token has the name",
        ListDoubt::EqualSource => "the source is equal to one before it",
        ListDoubt::MissingContents => "the map has no contents for the source",
        ListDoubt::RootWithoutEffect => "sourceRoot changes no source",
    }
}

fn range_sentence(doubt: RangeDoubt) -> &'static str
    ensures { result.now ≡ range_sentence doubt }
{
    match doubt {
        RangeDoubt::OtherFormat => "rangeMappings fits mappings as numbers, but not as bits",
        RangeDoubt::NoFormat => "rangeMappings does not fit mappings",
    }
}

fn contents_sentence(doubt: ContentsDoubt) -> &'static str
    ensures { result.now ≡ contents_sentence doubt }
{
    match doubt {
        ContentsDoubt::OtherContents => "the contents are not those of the file",
        ContentsDoubt::NoContents => "the source has neither contents nor a file",
    }
}

fn generated_sentence(doubt: GeneratedDoubt) -> &'static str
    ensures { result.now ≡ generated_sentence doubt }
{
    match doubt {
        GeneratedDoubt::PastText => "the generated text has no such line",
        GeneratedDoubt::PastLine => "the generated line has fewer columns",
        GeneratedDoubt::WithinPair => "the generated column is in the middle of a surrogate pair",
    }
}

/// A sentence that says what looks wrong.
pub(crate) fn suspicion_sentence(suspicion: Suspicion) -> &'static str
    ensures { result.now ≡ suspicion_sentence suspicion }
{
    match suspicion {
        Suspicion::Token(doubt) => token_sentence(doubt),
        Suspicion::Item(doubt) => item_sentence(doubt),
        Suspicion::SegmentBack => "the segment has a lower column than the one before it",
        Suspicion::Ranges(doubt) => range_sentence(doubt),
        Suspicion::OtherDebugId => "the generated text names another debug id",
        Suspicion::OtherReference => {
            "the reference of the generated text ends in another file name"
        }
        Suspicion::Contents(doubt) => contents_sentence(doubt),
        Suspicion::Generated(doubt) => generated_sentence(doubt),
    }
}

/// A sentence that says which positions are off.
pub(crate) fn shift_sentence(shifted: Shifted) -> &'static str
    ensures { result.now ≡ shift_sentence shifted }
{
    match shifted {
        Shifted::Original(_) => "names stand in the sources after this shift",
        Shifted::Generated(_) => "words stand in the generated text after this shift",
    }
}

fn push_item_key(text: &mut String, doubt: ListDoubt, index: usize) -> Result<()>
    ensures text { OnOk result (string_bytes text.new ≡ string_bytes text.old ++ item_key doubt index) }
    ensures memory { IsOkUnless result OutOfMemory }
{
    match doubt {
        ListDoubt::UnusedName => push_indexed(text, "names", index),
        ListDoubt::RootWithoutEffect => push(text, "sourceRoot"),
        _ => push_indexed(text, "sources", index),
    }
}

/// Appends the key that looks wrong. The only error is `OutOfMemory`.
pub(crate) fn push_suspect_key(text: &mut String, suspect: &Suspect) -> Result<()>
    ensures text { OnOk result (string_bytes text.new ≡ string_bytes text.old ++ suspect_key suspect.now) }
    ensures memory { IsOkUnless result OutOfMemory }
{
    match suspect.suspicion {
        Suspicion::Item(doubt) => push_item_key(text, doubt, suspect.index),
        Suspicion::Ranges(_) => push(text, "rangeMappings"),
        Suspicion::OtherDebugId => push(text, "debugId"),
        Suspicion::OtherReference => Ok(()),
        Suspicion::Contents(_) => push_indexed(text, "sources", suspect.index),
        _ => push(text, "mappings"),
    }
}
