//! Marks of the items of a list.
ghost use Rattle.std.specs.Prelude.{◌≡◌, ◌≤◌, ◌++◌, ◌∷◌, [], ℕ, List, IfOk, IfErr, OnOk, length, map, string_bytes, false};
ghost use Rattle.std.specs.Prelude.{cond, take};
ghost use Rattle.std.specs.List.{slice_index_or};
ghost use Rattle.std.specs.Cmp.Lexicographic.{pointwise};
ghost use Rattle.sourcemap_map_parts.specs.TextLists.{same_text};
ghost use Rattle.sourcemap_errors.specs.declared.errors.Error.TheVariants.{OutOfMemory};
ghost use Rattle.sourcemap_check_texts.specs.Doubts.{ArePlaces, marked};
ghost use Rattle.sourcemap_check_lists.specs.Lists.{id_in, is_unused, is_repeated};
ghost use Rattle.sourcemap_check_lists.specs.Marks.{AreMarks};

use sourcemap_check_texts::tokens::Places;
use sourcemap_errors::errors::Result;
use sourcemap_interning::text_index::TextIndex;
use sourcemap_tokens::tokens::RawToken;
use std::alloc::Global;

// The field of a token that has an id.
#[derive(Clone, Copy)]
pub(crate) enum Field {
    Source,
    Name,
}

#[inline]
fn id_in(field: Field, token: RawToken) -> u32
    ensures { result ≡ id_in field token }
{
    match field {
        Field::Source => token.src_id,
        Field::Name => token.name_id,
    }
}

// For each id below `count`, whether no token has it.
pub(crate) fn unused_marks(
    alloc: Global,
    tokens: &[RawToken],
    field: Field,
    count: usize,
) -> Result<Vec<bool>>
    ensures marks { IfOk result (AreMarks (is_unused field tokens.now) count) }
    ensures memory { IfErr result (λ e. e ≡ OutOfMemory) }
{
    let mut unused = vec![in alloc; true; count]?;
    for token in tokens {
        let id = id_in(field, *token) as usize;
        if id < count {
            unused[id] = false;
        }
    }
    Ok(unused)
}

// For each text, whether it is equal to one before it.
pub(crate) fn repeated_marks(alloc: Global, texts: &[String]) -> Result<Vec<bool>>
    requires { length texts.now ≤ 4294967295 }
    ensures marks { IfOk result (AreMarks (is_repeated (map string_bytes texts.now))
        (length texts.now)) }
    ensures memory { IfErr result (λ e. e ≡ OutOfMemory) }
{
    let mut index = TextIndex::new(alloc)?;
    let mut marks = Vec::with_capacity(alloc, texts.len())?;
    for text in texts {
        marks.push(index.contains(text.as_str()))?;
        let _number = index.number_of(text.as_str())?;
    }
    Ok(marks)
}

// Adds an index if its mark is set, unless there are `most` already.
fn push_if(first: &mut Vec<usize>, most: usize, index: usize, mark: bool) -> Result<()>
    ensures pushed { (all : List ℕ) → first.old.items ≡ take most all
        → OnOk result (first.new.items ≡ take most (all ++ cond mark (index ∷ []) [])) }
    ensures memory { IfErr result (λ e. e ≡ OutOfMemory) }
{
    if mark && first.len() < most {
        first.push(index)?;
    }
    Ok(())
}

// Whether both lists have the same texts in the same order.
pub(crate) fn same_texts(a: &[String], b: &[String]) -> bool
    ensures { result ≡ pointwise same_text (map string_bytes a.now) (map string_bytes b.now) }
{
    a == b
}

// The indexes of the first `most` marks that are set, and how many are set.
pub(crate) fn marked_places(alloc: Global, marks: &[bool], most: usize) -> Result<Places>
    ensures places { IfOk result (ArePlaces most
        (marked (λ i. slice_index_or marks.now i false) (length marks.now))) }
    ensures memory { IfErr result (λ e. e ≡ OutOfMemory) }
{
    let mut first = Vec::new(alloc);
    for (index, mark) in marks.iter().enumerate() {
        push_if(&mut first, most, index, *mark)?;
    }
    let count = marks.iter().filter(|mark| **mark).count();
    Ok(Places { first, count })
}
