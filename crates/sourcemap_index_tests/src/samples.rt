//! Texts of index maps that several modules decode.

/// Two sections, the second of which starts in the middle of a line.
pub const TWO: &str = concat!(
    r#"{"sections":[{"offset":{"line":0,"column":0},"map":{"sources":["a.js"],"#,
    r#""mappings":"AAAA"}},{"offset":{"line":10,"column":4},"map":{"sources":["b.js"],"#,
    r#""mappings":"AAAA"}}]}"#,
);

pub const LINKED: &str = r#"{"sections":[{"offset":{"line":1,"column":4},"url":"u"}]}"#;

pub const NEITHER: &str = r#"{"sections":[{"offset":{"line":1,"column":4}}]}"#;

pub const NESTED: &str = concat!(
    r#"{"sections":[{"offset":{"line":2,"column":3},"map":{"sections":[{"offset":{"line":0,"#,
    r#""column":1},"map":{"sourceRoot":"r","sources":["a.js"],"sourcesContent":["x"],"#,
    r#""names":["n"],"mappings":"AAAAA;AAAA","ignoreList":[0]}}]}}],"file":"f"}"#,
);

pub const BUNDLE: &str =
    r#"{"sections":[],"x_facebook_offsets":[5,null],"x_metro_module_paths":["a.js"]}"#;

/// The second section has a Hermes map, and starts in the middle of a line.
pub const HERMES: &str = concat!(
    r#"{"sections":[{"offset":{"line":0,"column":0},"map":{"sources":["a.js"],"#,
    r#""mappings":"AAAA"}},{"offset":{"line":1,"column":2},"map":{"sources":["b.js"],"#,
    r#""mappings":"AAAA;AAAA","x_facebook_sources":[[{"names":["f"],"mappings":"AAA"}],"#,
    r#"null]}}]}"#,
);
