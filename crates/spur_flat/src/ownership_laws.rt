//! A law of the ownership protocol over the tags, shown by a function that does nothing.

ghost use Rattle.spur_flat.specs.Ownership.{EachHasOneOwner};

/// The ownership rules, over what the boards' lines are known to hold: after any history from no tags a block has one owner
/// at most, and one that is exclusive at a board is valid at no other board.
///
/// The change that an entry makes keeps this, whether the entry is allowed or not: so it holds after every tagged history.
pub fn blocks_have_one_owner()
    ensures { EachHasOneOwner }
{}
