//! The codes of what looks wrong.
ghost use Rattle.std.specs.Prelude.{◌≡◌};
ghost use Rattle.sourcemap_check_suspicious.specs.Codes.{code_of, contents_code, generated_code, item_code, range_code, token_code};

use crate::suspects::Suspicion;
use sourcemap_check_lists::contents::ContentsDoubt;
use sourcemap_check_lists::lists::ListDoubt;
use sourcemap_check_order::ranges::RangeDoubt;
use sourcemap_check_texts::generated::GeneratedDoubt;
use sourcemap_check_texts::tokens::Doubt;

fn token_code(doubt: Doubt) -> u32
    ensures { result ≡ token_code doubt }
{
    match doubt {
        Doubt::TwoOriginals => 201,
        Doubt::PastSource => 202,
        Doubt::PastLine => 203,
        Doubt::WithinPair => 204,
        Doubt::OtherName => 205,
    }
}

fn item_code(doubt: ListDoubt) -> u32
    ensures { result ≡ item_code doubt }
{
    match doubt {
        ListDoubt::UnusedSource => 211,
        ListDoubt::UnusedName => 212,
        ListDoubt::EqualSource => 213,
        ListDoubt::MissingContents => 214,
        ListDoubt::RootWithoutEffect => 215,
    }
}

fn range_code(doubt: RangeDoubt) -> u32
    ensures { result ≡ range_code doubt }
{
    match doubt {
        RangeDoubt::OtherFormat => 222,
        RangeDoubt::NoFormat => 223,
    }
}

fn contents_code(doubt: ContentsDoubt) -> u32
    ensures { result ≡ contents_code doubt }
{
    match doubt {
        ContentsDoubt::OtherContents => 226,
        ContentsDoubt::NoContents => 227,
    }
}

fn generated_code(doubt: GeneratedDoubt) -> u32
    ensures { result ≡ generated_code doubt }
{
    match doubt {
        GeneratedDoubt::PastText => 231,
        GeneratedDoubt::PastLine => 232,
        GeneratedDoubt::WithinPair => 233,
    }
}

/// The number of the code. The code is `SM` and this number.
pub fn code_of(suspicion: Suspicion) -> u32
    ensures { result ≡ code_of suspicion }
{
    match suspicion {
        Suspicion::Token(doubt) => token_code(doubt),
        Suspicion::Item(doubt) => item_code(doubt),
        Suspicion::SegmentBack => 221,
        Suspicion::Ranges(doubt) => range_code(doubt),
        Suspicion::OtherDebugId => 224,
        Suspicion::OtherReference => 225,
        Suspicion::Contents(doubt) => contents_code(doubt),
        Suspicion::Generated(doubt) => generated_code(doubt),
    }
}
