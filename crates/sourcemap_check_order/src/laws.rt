//! What the places of segments say.
ghost use Rattle.std.specs.Prelude.{◌↔◌, ℕ, List, Contains};
ghost use Rattle.sourcemap_check_order.specs.declared.order.SegmentPlace.{SegmentPlace};
ghost use Rattle.sourcemap_check_order.specs.Order.{places_back, IsBack};

/// A law: the places of a text are exactly those of the segments that go back.
pub fn places_are_exact()
    ensures { (text : List ℕ) (place : SegmentPlace) → (Contains (places_back text) place)
        ↔ (IsBack text place) }
{}
