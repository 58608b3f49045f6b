//! The tokens of a map, adjusted by the tokens of a second map. The generated text of the first map
//! is the source text of the second.

pub use sourcemap_compose::composition::compose;
pub use sourcemap_compose::stretches::{Side, Stretch};
