//! Levels, which say which parts of objects and arrays are kept.
ghost use Rattle.std.specs.Prelude.{◌≡◌, Option, option_and_then};
ghost use Rattle.sourcemap_json_read.specs.Kept.{Part, all_items, at_key};

/// What objects and arrays keep.
pub trait Level: Copy + Drop {
    /// The level of the values at a part of an object or array, or `None` if an object or array of
    /// this level does not keep the part.
    ghost inside: { Self → Part → Option Self };

    /// Returns the level of the value at `key`, or `None` if an object of this level does not keep
    /// the member of `key`.
    fn enter(self, key: &str) -> Option<Self>
        ensures { result ≡ inside self (at_key key.now) };

    /// Returns the level of the items of an array, or `None` if an array of this level keeps no
    /// item.
    fn enter_items(self) -> Option<Self>
        ensures { result ≡ inside self all_items };
}

/// Returns the level of the value at `key`. Without a level, or if an object of the level does not
/// keep the member of `key`, returns `None`.
#[inline(always)]
pub(crate) fn level_inside<L: Level>(level: Option<L>, key: &str) -> Option<L>
    ensures { result ≡ option_and_then (λ l. L.Level.inside l (at_key key.now)) level }
{
    match level {
        Some(level) => level.enter(key),
        None => None,
    }
}

/// Returns the level of the items of an array. Without a level, or if an array of the level keeps no
/// item, returns `None`.
#[inline(always)]
pub(crate) fn level_of_items<L: Level>(level: Option<L>) -> Option<L>
    ensures { result ≡ option_and_then (λ l. L.Level.inside l all_items) level }
{
    match level {
        Some(level) => level.enter_items(),
        None => None,
    }
}
