//! Hermes maps, which know the functions of their sources.

pub use sourcemap_hermes::decode::decode_hermes;
pub use sourcemap_hermes::map::SourceMapHermes;
pub use sourcemap_hermes_scopes::function_map::HermesFunctionMap;
pub use sourcemap_hermes_scopes::offsets::HermesScopeOffset;
