// Which parts of JSON objects and arrays are kept, since a rule looks at them.
ghost use Rattle.std.specs.Prelude.{◌≡◌};
ghost use Rattle.sourcemap_json_read.specs.Kept.{at_key};
ghost use Rattle.sourcemap_check.specs.Levels.{inner_level};
ghost use Rattle.sourcemap_check.specs.declared.levels.CheckLevel.TheVariants.{Map, Section, Offset};

use sourcemap_json_read::kept::Level;

// What a value is looked at as. Of any other array or object no part is kept.
#[derive(Clone, Copy)]
pub(crate) enum CheckLevel {
    // A text, a number or null.
    Scalar,
    // An array of scalars.
    Scalars,
    Map,
    // The sections of an index map.
    Sections,
    Section,
    // The offset of a section.
    Offset,
}

impl Level for CheckLevel {
    ghost inside = { inner_level };

    fn enter(self, key: &str) -> Option<CheckLevel> {
        match self {
            CheckLevel::Map => in_map(key),
            CheckLevel::Section => in_section(key),
            CheckLevel::Offset => in_offset(key),
            CheckLevel::Scalar | CheckLevel::Scalars | CheckLevel::Sections => None,
        }
    }

    fn enter_items(self) -> Option<CheckLevel> {
        match self {
            CheckLevel::Scalars => Some(CheckLevel::Scalar),
            CheckLevel::Sections => Some(CheckLevel::Section),
            CheckLevel::Scalar | CheckLevel::Map | CheckLevel::Section | CheckLevel::Offset => None,
        }
    }
}

fn in_map(key: &str) -> Option<CheckLevel>
    ensures { result ≡ inner_level Map (at_key key.now) }
{
    match key {
        "version" | "file" | "sourceRoot" | "mappings" => Some(CheckLevel::Scalar),
        "sources" | "sourcesContent" | "names" | "ignoreList" => Some(CheckLevel::Scalars),
        "sections" => Some(CheckLevel::Sections),
        _ => None,
    }
}

fn in_section(key: &str) -> Option<CheckLevel>
    ensures { result ≡ inner_level Section (at_key key.now) }
{
    match key {
        "offset" => Some(CheckLevel::Offset),
        "map" => Some(CheckLevel::Map),
        _ => None,
    }
}

fn in_offset(key: &str) -> Option<CheckLevel>
    ensures { result ≡ inner_level Offset (at_key key.now) }
{
    match key {
        "line" | "column" => Some(CheckLevel::Scalar),
        _ => None,
    }
}
