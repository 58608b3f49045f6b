//! The options of `rewrite`.

/// What `rewrite` keeps of a map, and what it changes.
#[derive(Clone, Copy, Debug)]
pub struct RewriteOptions<'a> {
    /// Whether names are kept.
    pub with_names: bool,
    /// Whether contents of sources are kept.
    pub with_source_contents: bool,
    /// Whether `rewrite` loads contents of used sources from files. If `with_source_contents` is
    /// true, contents are loaded only for sources without contents, otherwise for all used sources.
    /// To find the file of a source, `rewrite` resolves the source against `sourceRoot`, and then
    /// against the URL of the folder (see `base_path`). Prefixes are stripped later. A source is
    /// skipped if it resolves to no file path, or if its file is not a regular file, cannot be read
    /// or is not UTF-8. A source may also be skipped if the source, resolved against `sourceRoot`,
    /// and the URL of the folder together have 2^28 bytes or more. The size of this URL is the size
    /// before `..` is resolved. If this option is true and neither `base_path` nor `current_dir`
    /// starts with `/`, the error is `Io` of kind `InvalidInput`. The only other error is
    /// `OutOfMemory`.
    pub load_local_source_contents: bool,
    /// The folder of the sources. A `base_path` that starts with `/` is the folder. Otherwise, if
    /// `current_dir` starts with `/`, the folder is one path: `current_dir` and `base_path`, joined
    /// by `/`. If neither `base_path` nor `current_dir` starts with `/`, there is no folder. `None`
    /// is the same as the empty string.
    pub base_path: Option<&'a str>,
    /// Prefixes to strip from sources. Sources are resolved against `sourceRoot` first. A slash is
    /// appended to a prefix that does not end with `/`. Only the first prefix that a source starts
    /// with is stripped. `~` means the common prefix of all sources that are absolute paths: `/a`
    /// for `/a/b` and `/a/bc`. This common prefix is computed before sources are resolved, and
    /// before unused sources are dropped. The common prefix is tried last. If the common prefix is
    /// empty or `/`, `~` is ignored.
    pub strip_prefixes: &'a [&'a str],
    /// The folder that a relative `base_path` starts from. `None` is the same as the empty string.
    pub current_dir: Option<&'a str>,
}

impl Default for RewriteOptions<'_> {
    ghost use Rattle.sourcemap_map_rewrite.specs.Options.{IsDefault};

    ghost is_default = { IsDefault };

    /// Keeps names and contents, reads no file and strips no prefix.
    fn default() -> Self {
        RewriteOptions {
            with_names: true,
            with_source_contents: true,
            load_local_source_contents: false,
            base_path: None,
            strip_prefixes: &[],
            current_dir: None,
        }
    }
}
