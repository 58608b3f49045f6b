//! Setters of a map. The only error is `OutOfMemory`; it leaves the map unchanged.
ghost use Rattle.std.specs.Prelude.{◌≡◌, ◌<◌, [], length, slice_set};
ghost use Rattle.std.specs.Option.{option_copied};
ghost use Rattle.sourcemap_errors.specs.Answer.{Changes};
ghost use Rattle.sourcemap_map_regular.specs.Map.{fitted, IsWellFormed};

use crate::map::SourceMap;
use sourcemap_errors::errors::Result;
use sourcemap_headers::debug_id::DebugId;
use sourcemap_texts::copies::copy_text;

impl SourceMap {
    ghost use Rattle.std.specs.BTreeSet.{insert_key};
    ghost use Rattle.std.specs.Ordering.{nat_cmp};

    /// Sets the debug id, which associates the map with its generated file.
    pub fn set_debug_id(&mut self, debug_id: Option<DebugId>)
        ensures { self.new ≡ record self.old { debug_id = debug_id } }
    {
        self.metadata.set_debug_id(debug_id);
    }

    /// Sets the name of the generated file. The only error is `OutOfMemory`.
    pub fn set_file(&mut self, file: Option<&str>) -> Result<()>
        ensures { Changes result self.old self.new
            (record self.old { file = option_copied file.entry }) }
    {
        let alloc = *self.names.allocator();
        self.metadata.set_file(alloc, file)?;
        Ok(())
    }

    /// Sets `sourceRoot`. Getters then prefix each source with the root, followed by `/` if the
    /// root does not end with it. Sources that begin with `/`, `http:` or `https:` get no prefix.
    /// With an empty root or `None`, no source gets a prefix. The only error is `OutOfMemory`.
    pub fn set_source_root(&mut self, root: Option<&str>) -> Result<()>
        ensures { Changes result self.old self.new
            (record self.old { root = option_copied root.entry }) }
    {
        let alloc = *self.names.allocator();
        let root = copy_text(alloc, root)?;
        self.sources.set_root(root)?;
        Ok(())
    }

    /// Removes all names. Tokens keep their name ids, which then have no name.
    pub fn remove_names(&mut self)
        ensures value { self.new ≡ record self.old { names = [] } }
        ensures well_formed { IsWellFormed self.old → IsWellFormed self.new }
    {
        self.names.clear();
    }

    /// Adds a source id to the ignore list. The map need not have a source with this id. The only
    /// error is `OutOfMemory`.
    pub fn add_to_ignore_list(&mut self, id: u32) -> Result<()>
        ensures { Changes result self.old self.new
            (record self.old { ignored = insert_key nat_cmp self.old.ignored id }) }
    {
        self.metadata.ignore(id)?;
        Ok(())
    }

    /// Sets the contents of the source with the id `id`; `None` removes the contents. The map must
    /// have a source with this id. On success, the list of contents has one item for each source:
    /// missing items are added as `None`, and surplus items are dropped. The only error is
    /// `OutOfMemory`.
    pub fn set_source_contents(&mut self, id: u32, contents: Option<&str>) -> Result<()>
        requires { id < length self.old.sources }
        ensures { Changes result self.old self.new (record self.old {
          contents = slice_set (fitted (length self.old.sources) self.old.contents) id
              (option_copied contents.entry);
        }) }
    {
        let count = self.sources.len();
        self.contents.set(count, id, contents)?;
        Ok(())
    }

    /// Changes the source with the id `id` to `source`. The map must have a source with this id.
    /// Getters resolve the new source against `sourceRoot`. The only error is `OutOfMemory`.
    pub fn set_source(&mut self, id: u32, source: &str) -> Result<()>
        requires { id < length self.old.sources }
        ensures value { Changes result self.old self.new
            (record self.old { sources = slice_set self.old.sources id source.now }) }
        ensures well_formed { IsWellFormed self.old → IsWellFormed self.new }
    {
        self.sources.set(id, source)?;
        Ok(())
    }
}
