//! Laws of compiled maps.
ghost use Rattle.std.specs.Prelude.{◌≡◌, ℕ, List};
ghost use Rattle.sourcemap_compiled.specs.Layout.{IsAccepted};
ghost use Rattle.sourcemap_compiled.specs.Soundness.{IsSound};
ghost use Rattle.sourcemap_index_model.specs.Flat.{AnswersLike as FlatAnswersLike, flat};
ghost use Rattle.sourcemap_index_model.specs.MapTree.{MapTree};
ghost use Rattle.sourcemap_map_regular.specs.Map.{MapValue};
ghost use Rattle.sourcemap_cache.specs.Compile.{IsCompiled};
ghost use Rattle.sourcemap_cache.specs.Meaning.{AnswersLike, HasScopesInOrder, MeansTheSame};
ghost use Rattle.sourcemap_cache.specs.declared.parts.WithContents.{WithContents};

/// A law: the file of a map means the same as the map at each position; the file of an index map
/// means the same as its flat map. A Hermes map whose functions are sorted by start position also
/// keeps the scope of each token.
pub fn compiled_maps_mean_the_same()
    ensures { (choice : WithContents) (t : MapTree) (bytes : List ℕ) → IsCompiled choice t bytes
        → MeansTheSame t bytes }
{}

/// A law: if each position with a meaning in a map has the same meaning in its flat map, it has the
/// same meaning in its file. `flatten` promises the premise for an index map whose sections do not
/// reach into the next ones at any level.
pub fn compiled_maps_answer_alike()
    ensures { (choice : WithContents) (t : MapTree) (m : MapValue) (bytes : List ℕ)
        → IsCompiled choice t bytes → flat t ≡ Ok m → FlatAnswersLike t m → AnswersLike t bytes }
{}

/// A law: equal maps give equal files. Of a Hermes map, the functions are to be sorted by start
/// position.
pub fn equal_maps_compile_alike()
    ensures { (choice : WithContents) (t : MapTree) (a b : List ℕ) → HasScopesInOrder t
        → IsCompiled choice t a → IsCompiled choice t b → a ≡ b }
{}

/// A law: `CompiledMap::parse` accepts the file of a map, and `verify` accepts it too. So lookups in it
/// are exact, and no getter returns an error.
pub fn compiled_maps_are_read()
    ensures accepted { (choice : WithContents) (t : MapTree) (bytes : List ℕ)
        → IsCompiled choice t bytes → IsAccepted bytes }
    ensures sound { (choice : WithContents) (t : MapTree) (bytes : List ℕ)
        → IsCompiled choice t bytes → IsSound bytes }
{}
