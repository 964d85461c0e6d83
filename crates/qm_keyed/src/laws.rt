// What a place among rows says.
ghost use Rattle.std.specs.Prelude.{◌≡◌, ℕ, List, slice_get, None};
ghost use Rattle.qm_keyed.specs.Places.{StandsAt, BelongsAt, row_of};

/// The row of a key is found where it stands, and none is found where one would belong.
pub fn rows_are_found_in_their_places<T, K: Ord>()
    ensures there { (key : T → K) (wanted : K) (rows : List T) (place : ℕ)
        → StandsAt K.cmp key wanted rows place → row_of K.cmp key wanted rows ≡ slice_get rows place }
    ensures absent { (key : T → K) (wanted : K) (rows : List T) (place : ℕ)
        → BelongsAt K.cmp key wanted rows place → row_of K.cmp key wanted rows ≡ None }
{}
