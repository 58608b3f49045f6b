// RAM bundles that are split by their index maps into the texts and the maps of their modules.
use crate::maps::{index_of, record_text};
use sourcemap::errors::{Error, Result};
use sourcemap::ram_bundle::{RamBundle, SplitRamBundleModuleIter, split_ram_bundle};
use sourcemap::sourceview::SourceView;
use sourcemap::types::{SourceMap, SourceMapIndex};
use sourcemap_test_support::checks::{Checked, check};
use sourcemap_test_support::results::{error_of, owned_text};
use std::alloc::Global;
use std::fs;
use std::rt::Files;

// `ONE` has one module, `xyz`, after the startup code `ab`. `CUT` is `ONE` without the last two
// bytes. In `LINES` the module has two lines, `xy` and `z`.
const ONE: &[u8] = b"\xe5\xd1\x0b\xfb\x01\0\0\0\x02\0\0\0\x02\0\0\0\x04\0\0\0abxyz\0";

const CUT: &[u8] = b"\xe5\xd1\x0b\xfb\x01\0\0\0\x02\0\0\0\x02\0\0\0\x04\0\0\0abxy";

const LINES: &[u8] = b"\xe5\xd1\x0b\xfb\x01\0\0\0\x02\0\0\0\x02\0\0\0\x05\0\0\0abxy\nz\0";

const THREE_MODULES: &[u8] =
    b"\xe5\xd1\x0b\xfb\x03\0\0\0\0\0\0\0\0\0\0\0\x04\0\0\0\x04\0\0\0\x03\0\0\0\x07\0\0\0\x02\0\0\0xyz\0uv\0w\0";

const AT_FIVE: &str = concat!(
    r#"{"sections":[{"offset":{"line":0,"column":0},"map":{"sources":["a.js"],"#,
    r#""mappings":";;;;;AAAA,EAAE;AAAA"}}],"x_facebook_offsets":[5]}"#,
);

// The index map of `THREE_MODULES`. The three modules are on the generated lines 5, 6 and 7.
const LINE_BY_LINE: &str = concat!(
    r#"{"sections":[{"offset":{"line":0,"column":0},"map":{"sources":["a.js"],"#,
    r#""sourcesContent":["A"],"names":["n"],"mappings":";;;;;AAAAA,EAAE;AAAA;AACAA"}}],"#,
    r#""x_facebook_offsets":[5,6,7]}"#,
);

// A bundle, its index map, and the text that `split_text` returns for them.
struct Row {
    about: &'static str,
    bundle: &'static [u8],
    index: &'static str,
    items: &'static str,
}

static ROWS: [Row; 28] = [
    Row {
        about: "a module on one line",
        bundle: ONE,
        index: AT_FIVE,
        items: r#"0.js [xyz] {"file":"0.js","mappings":"AAAA,EAAE","names":[],"sources":["a.js"],"version":3}"#,
    },
    Row {
        about: "a range token",
        bundle: ONE,
        index: concat!(
            r#"{"sections":[{"offset":{"line":0,"column":0},"map":{"sources":["a.js"],"#,
            r#""rangeMappings":";;;;;C","mappings":";;;;;AAAA,EAAE;AAAA"}}],"#,
            r#""x_facebook_offsets":[5]}"#,
        ),
        items: concat!(
            r#"0.js [xyz] {"file":"0.js","mappings":"AAAA,EAAE","names":[],"rangeMappings":"C","#,
            r#""sources":["a.js"],"version":3}"#,
        ),
    },
    Row {
        about: "a null offset",
        bundle: ONE,
        index: concat!(
            r#"{"sections":[{"offset":{"line":0,"column":0},"map":{"sources":["a.js"],"#,
            r#""mappings":";;;;;AAAA,EAAE;AAAA"}}],"x_facebook_offsets":[null]}"#,
        ),
        items: "",
    },
    Row {
        about: "a null offset of a module that is cut",
        bundle: CUT,
        index: concat!(
            r#"{"sections":[{"offset":{"line":0,"column":0},"map":{"sources":["a.js"],"#,
            r#""mappings":";;;;;AAAA,EAAE;AAAA"}}],"x_facebook_offsets":[null]}"#,
        ),
        items: "invalid ram bundle module entry",
    },
    Row {
        about: "too few offsets",
        bundle: ONE,
        index: concat!(
            r#"{"sections":[{"offset":{"line":0,"column":0},"map":{"sources":["a.js"],"#,
            r#""mappings":";;;;;AAAA,EAAE;AAAA"}}],"x_facebook_offsets":[]}"#,
        ),
        items: "invalid ram bundle module entry",
    },
    Row {
        about: "no offsets",
        bundle: ONE,
        index: concat!(
            r#"{"sections":[{"offset":{"line":0,"column":0},"map":{"sources":["a.js"],"#,
            r#""mappings":";;;;;AAAA,EAAE;AAAA"}}]}"#,
        ),
        items: "not a ram bundle",
    },
    Row {
        about: "no offsets and no map",
        bundle: ONE,
        index: r#"{"sections":[{"offset":{"line":0,"column":0},"url":"u"}]}"#,
        items: "cannot flatten the indexed sourcemap: Section has an unresolved sourcemap: u",
    },
    Row {
        about: "two lines: columns past the last line's width stay on the first",
        bundle: LINES,
        index: concat!(
            r#"{"sections":[{"offset":{"line":0,"column":0},"map":{"sources":["a.js"],"#,
            r#""mappings":";;;;;AAAA,SAAS;AAAA,CAAC"}}],"x_facebook_offsets":[5]}"#,
        ),
        items: concat!(
            "0.js [xy\nz] {\"file\":\"0.js\",\"mappings\":\"AAAA,SAAS;AAAA\",\"names\":[],",
            "\"sources\":[\"a.js\"],\"version\":3}",
        ),
    },
    Row {
        about: "an empty last line",
        bundle: b"\xe5\xd1\x0b\xfb\x01\0\0\0\0\0\0\0\0\0\0\0\x04\0\0\0xy\n\0",
        index: AT_FIVE,
        items: concat!(
            "0.js [xy\n] {\"file\":\"0.js\",\"mappings\":\"AAAA,EAAE\",\"names\":[],",
            "\"sources\":[\"a.js\"],\"version\":3}",
        ),
    },
    Row {
        about: "no text",
        bundle: b"\xe5\xd1\x0b\xfb\x01\0\0\0\0\0\0\0\0\0\0\0\x01\0\0\0\0",
        index: AT_FIVE,
        items: r#"0.js [] {"file":"0.js","mappings":"","names":[],"sources":[],"version":3}"#,
    },
    Row {
        about: "a surrogate pair has two columns",
        bundle: b"\xe5\xd1\x0b\xfb\x01\0\0\0\0\0\0\0\0\0\0\0\x05\0\0\0\xf0\x9f\x91\x8c\0",
        index: concat!(
            r#"{"sections":[{"offset":{"line":0,"column":0},"map":{"sources":["a.js"],"#,
            r#""mappings":";;;;;AAAA,CAAC,CAAC"}}],"x_facebook_offsets":[5]}"#,
        ),
        items: r#"0.js [👌] {"file":"0.js","mappings":"AAAA,CAAC","names":[],"sources":["a.js"],"version":3}"#,
    },
    Row {
        about: "each line end",
        bundle: b"\xe5\xd1\x0b\xfb\x01\0\0\0\0\0\0\0\0\0\0\0\x07\0\0\0a\r\nb\rc\0",
        index: concat!(
            r#"{"sections":[{"offset":{"line":0,"column":0},"map":{"sources":["a.js"],"#,
            r#""mappings":";;;;;AAAA,CAAC;AACA,CAAC;AACA,CAAC"}}],"x_facebook_offsets":[5]}"#,
        ),
        items: concat!(
            "0.js [a\r\nb\rc] {\"file\":\"0.js\",\"mappings\":\"AAAA,CAAC;AACA,CAAC;AACA\",",
            "\"names\":[],\"sources\":[\"a.js\"],\"version\":3}",
        ),
    },
    Row {
        about: "a token at the end",
        bundle: ONE,
        index: concat!(
            r#"{"sections":[{"offset":{"line":0,"column":0},"map":{"sources":["a.js"],"#,
            r#""mappings":";;;;;AAAA,GAAG"}}],"x_facebook_offsets":[5]}"#,
        ),
        items: r#"0.js [xyz] {"file":"0.js","mappings":"AAAA","names":[],"sources":["a.js"],"version":3}"#,
    },
    Row {
        about: "two tokens at the first position",
        bundle: ONE,
        index: concat!(
            r#"{"sections":[{"offset":{"line":0,"column":0},"map":{"sources":["a.js"],"#,
            r#""mappings":";;;;;AAAA,AAAC"}}],"x_facebook_offsets":[5]}"#,
        ),
        items: r#"0.js [xyz] {"file":"0.js","mappings":"AAAA,AAAC","names":[],"sources":["a.js"],"version":3}"#,
    },
    Row {
        about: "a token before the module alone",
        bundle: ONE,
        index: concat!(
            r#"{"sections":[{"offset":{"line":0,"column":0},"map":{"sources":["a.js"],"#,
            r#""mappings":";;;AAAA"}}],"x_facebook_offsets":[5]}"#,
        ),
        items: r#"0.js [xyz] {"file":"0.js","mappings":"","names":[],"sources":[],"version":3}"#,
    },
    Row {
        about: "a token after the first position alone",
        bundle: ONE,
        index: concat!(
            r#"{"sections":[{"offset":{"line":0,"column":0},"map":{"sources":["a.js"],"#,
            r#""mappings":";;;;;CAAA"}}],"x_facebook_offsets":[5]}"#,
        ),
        items: "invalid ram bundle module entry",
    },
    Row {
        about: "two modules on one line",
        bundle: b"\xe5\xd1\x0b\xfb\x02\0\0\0\0\0\0\0\0\0\0\0\x04\0\0\0\x04\0\0\0\x03\0\0\0xyz\0uv\0",
        index: concat!(
            r#"{"sections":[{"offset":{"line":0,"column":0},"map":{"sources":["a.js"],"#,
            r#""mappings":";;;;;AAAA,EAAE;AAAA"}}],"x_facebook_offsets":[5,5]}"#,
        ),
        items: concat!(
            r#"0.js [xyz] {"file":"0.js","mappings":"AAAA,EAAE","names":[],"sources":["a.js"],"#,
            r#""version":3} | 1.js [uv] {"file":"1.js","mappings":"AAAA","names":[],"#,
            r#""sources":["a.js"],"version":3}"#,
        ),
    },
    Row {
        about: "modules whose bytes overlap, and offsets out of order",
        bundle: b"\xe5\xd1\x0b\xfb\x02\0\0\0\0\0\0\0\0\0\0\0\x04\0\0\0\x01\0\0\0\x03\0\0\0xyz\0",
        index: concat!(
            r#"{"sections":[{"offset":{"line":0,"column":0},"map":{"sources":["a.js"],"#,
            r#""mappings":";;;;;AAAA,EAAE;AAAA"}}],"x_facebook_offsets":[6,5]}"#,
        ),
        items: concat!(
            r#"0.js [xyz] {"file":"0.js","mappings":"AAAE","names":[],"sources":["a.js"],"#,
            r#""version":3} | 1.js [yz] {"file":"1.js","mappings":"AAAA","names":[],"#,
            r#""sources":["a.js"],"version":3}"#,
        ),
    },
    Row {
        about: "a module that is missing, one with a length of 0, one that is not UTF-8, and one more",
        bundle: b"\xe5\xd1\x0b\xfb\x04\0\0\0\0\0\0\0\0\0\0\0\0\0\0\0\x03\0\0\0\0\0\0\0\0\0\0\0\x02\0\0\0\x02\0\0\0\x04\0\0\0\xff\0xyz\0",
        index: concat!(
            r#"{"sections":[{"offset":{"line":0,"column":0},"map":{"sources":["a.js"],"#,
            r#""mappings":";;;;;AAAA,EAAE;AAAA"}}],"x_facebook_offsets":[9,5,5,5]}"#,
        ),
        items: concat!(
            r#"invalid ram bundle module entry | invalid ram bundle module entry | 3.js [xyz] "#,
            r#"{"file":"3.js","mappings":"AAAA,EAAE","names":[],"sources":["a.js"],"version":3}"#,
        ),
    },
    Row {
        about: "an offset less than modules",
        bundle: b"\xe5\xd1\x0b\xfb\x02\0\0\0\0\0\0\0\0\0\0\0\x04\0\0\0\x04\0\0\0\x03\0\0\0xyz\0uv\0",
        index: AT_FIVE,
        items: concat!(
            r#"0.js [xyz] {"file":"0.js","mappings":"AAAA,EAAE","names":[],"sources":["a.js"],"#,
            r#""version":3} | invalid ram bundle module entry"#,
        ),
    },
    Row {
        about: "a null offset before another",
        bundle: b"\xe5\xd1\x0b\xfb\x02\0\0\0\0\0\0\0\0\0\0\0\x04\0\0\0\x04\0\0\0\x03\0\0\0xyz\0uv\0",
        index: concat!(
            r#"{"sections":[{"offset":{"line":0,"column":0},"map":{"sources":["a.js"],"#,
            r#""mappings":";;;;;AAAA,EAAE;AAAA"}}],"x_facebook_offsets":[null,5]}"#,
        ),
        items: r#"1.js [uv] {"file":"1.js","mappings":"AAAA","names":[],"sources":["a.js"],"version":3}"#,
    },
    Row {
        about: "the last line",
        bundle: b"\xe5\xd1\x0b\xfb\x01\0\0\0\0\0\0\0\0\0\0\0\x04\0\0\0xyz\0",
        index: concat!(
            r#"{"sections":[{"offset":{"line":4294967295,"column":0},"map":{"sources":["a.js"],"#,
            r#""mappings":"AAAA,SAAS"}}],"x_facebook_offsets":[4294967295]}"#,
        ),
        items: r#"0.js [xyz] {"file":"0.js","mappings":"AAAA","names":[],"sources":["a.js"],"version":3}"#,
    },
    Row {
        about: "a text that passes the last line",
        bundle: b"\xe5\xd1\x0b\xfb\x01\0\0\0\0\0\0\0\0\0\0\0\x04\0\0\0x\ny\0",
        index: concat!(
            r#"{"sections":[{"offset":{"line":4294967295,"column":0},"map":{"sources":["a.js"],"#,
            r#""mappings":"AAAA,SAAS"}}],"x_facebook_offsets":[4294967295]}"#,
        ),
        items: concat!(
            "0.js [x\ny] {\"file\":\"0.js\",\"mappings\":\"AAAA,SAAS\",\"names\":[],",
            "\"sources\":[\"a.js\"],\"version\":3}",
        ),
    },
    Row {
        about: "sources and names in the order of first use",
        bundle: ONE,
        index: concat!(
            r#"{"sections":[{"offset":{"line":0,"column":0},"map":{"sourceRoot":"r","#,
            r#""sources":["a.js","b.js"],"sourcesContent":["A","B"],"names":["n","m"],"#,
            r#""ignoreList":[0,1],"mappings":";;;;;ACAAC,CDAAD"}}],"x_facebook_offsets":[5]}"#,
        ),
        items: concat!(
            r#"0.js [xyz] {"file":"0.js","mappings":"AAAAA,CCAAC","names":["m","n"],"#,
            r#""sources":["r/b.js","r/a.js"],"sourcesContent":["B","A"],"version":3}"#,
        ),
    },
    Row {
        about: "a token without a source",
        bundle: ONE,
        index: concat!(
            r#"{"sections":[{"offset":{"line":0,"column":0},"map":{"sources":["a.js"],"#,
            r#""mappings":";;;;;A,EAAA"}}],"x_facebook_offsets":[5]}"#,
        ),
        items: r#"0.js [xyz] {"file":"0.js","mappings":"A,EAAA","names":[],"sources":["a.js"],"version":3}"#,
    },
    Row {
        about: "two sections",
        bundle: ONE,
        index: concat!(
            r#"{"sections":[{"offset":{"line":5,"column":0},"map":{"sources":["a.js"],"#,
            r#""mappings":"AAAA"}},{"offset":{"line":5,"column":2},"map":{"sources":["b.js"],"#,
            r#""mappings":"AAAA"}}],"x_facebook_offsets":[5]}"#,
        ),
        items: r#"0.js [xyz] {"file":"0.js","mappings":"AAAA,ECAA","names":[],"sources":["a.js","b.js"],"version":3}"#,
    },
    Row {
        about: "a bundle of five numbers and three modules",
        bundle: b"\xe5\xd1\x0b\xfb\x05\0\0\0\x06\0\0\0\x06\0\0\0\x03\0\0\0\0\0\0\0\0\0\0\0\0\0\0\0\0\0\0\0\x09\0\0\0\x02\0\0\0\x0b\0\0\0\x03\0\0\0var a;ab\0c\0de\0",
        index: concat!(
            r#"{"sections":[{"offset":{"line":0,"column":0},"map":{"sources":["a.js"],"#,
            r#""sourcesContent":["A"],"mappings":"AAAA"}},{"offset":{"line":1,"column":0},"#,
            r#""map":{"sources":["b.js"],"mappings":"AAAA,CAAC"}},{"offset":{"line":2,"#,
            r#""column":0},"map":{"sources":["c.js"],"mappings":"AAAA,CAAC"}}],"#,
            r#""x_facebook_offsets":[0,null,null,1,2],"x_metro_module_paths":["a.js","b.js","#,
            r#""c.js","d.js","e.js","f.js","g.js"]}"#,
        ),
        items: concat!(
            r#"0.js [ab] {"file":"0.js","mappings":"AAAA","names":[],"sources":["a.js"],"#,
            r#""sourcesContent":["A"],"version":3} | 3.js [c] {"file":"3.js","mappings":"AAAA","#,
            r#""names":[],"sources":["b.js"],"version":3} | 4.js [de] {"file":"4.js","#,
            r#""mappings":"AAAA,CAAC","names":[],"sources":["c.js"],"version":3}"#,
        ),
    },
    Row {
        about: "a table of 4294967295 entries that is not there",
        bundle: b"\xe5\xd1\x0b\xfb\xff\xff\xff\xff\x02\0\0\0",
        index: AT_FIVE,
        items: concat!(
            "invalid ram bundle module entry | invalid ram bundle module entry | invalid ram ",
            "bundle module entry | invalid ram bundle module entry | invalid ram bundle ",
            "module entry | invalid ram bundle module entry | invalid ram bundle module ",
            "entry | invalid ram bundle module entry | invalid ram bundle module entry",
        ),
    },
];

fn parts_text(alloc: Global, name: &str, source: &str, map: SourceMap) -> Result<String> {
    let record = record_text(alloc, map.into_raw_sourcemap())?;
    owned_text(format!(in alloc; "{name} [{source}] {record}"))
}

// For `Ok`, the name, the text and the map of the module. For `Err`, the text of the error, but
// `OutOfMemory` is returned as `Err`.
fn item_text(alloc: Global, item: Result<(String, SourceView, SourceMap)>) -> Result<String> {
    match item {
        Ok((name, view, map)) => parts_text(alloc, name.as_str(), view.source(), map),
        Err(error) => error_of(alloc, Err::<(), Error>(error)),
    }
}

// The first nine items.
fn items_text(alloc: Global, items: SplitRamBundleModuleIter<'_>) -> Result<String> {
    let mut text = String::new(alloc);
    for item in items.take(9) {
        if !text.is_empty() {
            text.push_str(" | ")?;
        }
        text.push_str(item_text(alloc, item)?.as_str())?;
    }
    Ok(text)
}

// The first nine items, or why the bundle is not split.
fn split_text(alloc: Global, bundle: &RamBundle<'_>, index: &SourceMapIndex) -> Result<String> {
    match split_ram_bundle(alloc, bundle, index) {
        Ok(items) => items_text(alloc, items),
        Err(error) => error_of(alloc, Err::<(), Error>(error)),
    }
}

fn read_and_split(alloc: Global, bytes: &[u8], text: &str) -> Result<String> {
    let index = index_of(alloc, text)?;
    split_text(alloc, &RamBundle::parse_indexed_from_slice(bytes)?, &*index)
}

#[test]
fn bundles_are_split(rt: HostRuntime) -> Checked {
    let alloc = rt.alloc();
    for row in ROWS.iter() {
        let items = read_and_split(alloc, row.bundle, row.index);
        check(row.about, items, row.items)?;
    }
    Ok(())
}

// A file bundle that has the modules 0 and 2 of `THREE_MODULES`, and no module 1.
fn file_bundle<F: Files>(rt: &F, alloc: Global) -> Result<RamBundle<'static>> {
    let _ = fs::remove_dir_all(&(rt, alloc), "split_files");
    fs::create_dir_all(rt, "split_files/js-modules")?;
    fs::write(rt, "split_files/main.js", "main")?;
    fs::write(rt, "split_files/js-modules/UNBUNDLE", &ONE[..4])?;
    fs::write(rt, "split_files/js-modules/0.js", "xyz")?;
    fs::write(rt, "split_files/js-modules/2.js", "w")?;
    let bundle = RamBundle::parse_unbundle_from_path(rt, alloc, "split_files/main.js")?;
    fs::remove_dir_all(&(rt, alloc), "split_files")?;
    Ok(bundle)
}

fn split_files<F: Files>(rt: &F, alloc: Global) -> Result<String> {
    let index = index_of(alloc, LINE_BY_LINE)?;
    split_text(alloc, &file_bundle(rt, alloc)?, &*index)
}

#[test]
fn file_bundles_are_split(rt: HostRuntime) -> Checked {
    let want = concat!(
        r#"0.js [xyz] {"file":"0.js","mappings":"AAAAA,EAAE","names":["n"],"#,
        r#""sources":["a.js"],"sourcesContent":["A"],"#,
        r#""version":3} | 2.js [w] {"file":"2.js","mappings":"AACEA","names":["n"],"#,
        r#""sources":["a.js"],"sourcesContent":["A"],"version":3}"#,
    );
    check("files", split_files(&rt, rt.alloc()), want)
}

static ITEMS: [&str; 3] = [
    concat!(
        r#"0.js [xyz] {"file":"0.js","mappings":"AAAAA,EAAE","names":["n"],"sources":["a.js"],"#,
        r#""sourcesContent":["A"],"version":3}"#,
    ),
    r#"1.js [uv] {"file":"1.js","mappings":"AAAE","names":[],"sources":["a.js"],"sourcesContent":["A"],"version":3}"#,
    concat!(
        r#"2.js [w] {"file":"2.js","mappings":"AACEA","names":["n"],"sources":["a.js"],"#,
        r#""sourcesContent":["A"],"version":3}"#,
    ),
];

// Returns true in three cases: the text of the item is `want`; the item is the error `OutOfMemory`;
// memory runs out while the text of the item is made.
fn is_wanted_or_out_of_memory(
    alloc: Global,
    item: Result<(String, SourceView, SourceMap)>,
    want: &str,
) -> bool {
    match item_text(alloc, item) {
        Ok(text) => text.as_str() == want,
        Err(Error::OutOfMemory) => true,
        Err(_) => false,
    }
}

// Splits the bundle, and counts the items, out of three, for which `is_wanted_or_out_of_memory`
// returns true.
fn wanted_items(alloc: Global, bundle: &RamBundle<'_>, index: &SourceMapIndex) -> Result<usize> {
    let items = split_ram_bundle(alloc, &*bundle, index)?;
    let mut count = 0usize;
    for (item, want) in items.zip(&ITEMS) {
        if is_wanted_or_out_of_memory(alloc, item, want) {
            count = count.saturating_add(1);
        }
    }
    Ok(count)
}

fn split_where_memory_fails(alloc: Global) -> Result<String> {
    let index = index_of(alloc, LINE_BY_LINE)?;
    let bundle = RamBundle::parse_indexed_from_slice(THREE_MODULES)?;
    // if memory runs out before the first item, the bundle is split again
    let count = match wanted_items(alloc, &bundle, &*index) {
        Err(Error::OutOfMemory) => wanted_items(alloc, &bundle, &*index)?,
        other => other?,
    };
    let again = split_text(alloc, &bundle, &*index)?;
    owned_text(format!(in alloc; "{count} | {again}"))
}

// If one allocation fails while an item is made, only this item is `OutOfMemory`. The other items
// are as in `ITEMS`. The next call of `split_ram_bundle` then returns all items.
#[test]
fn an_error_of_an_item_costs_no_other(rt: HostRuntime) -> Checked {
    let got = split_where_memory_fails(rt.alloc());
    let want = concat!(
        r#"3 | 0.js [xyz] {"file":"0.js","mappings":"AAAAA,EAAE","names":["n"],"#,
        r#""sources":["a.js"],"sourcesContent":["A"],"#,
        r#""version":3} | 1.js [uv] {"file":"1.js","mappings":"AAAE","names":[],"#,
        r#""sources":["a.js"],"sourcesContent":["A"],"#,
        r#""version":3} | 2.js [w] {"file":"2.js","mappings":"AACEA","names":["n"],"#,
        r#""sources":["a.js"],"sourcesContent":["A"],"version":3}"#,
    );
    check("items", got, want)
}
