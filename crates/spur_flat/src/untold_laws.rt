//! A law of the state that stands after a history where the swap does not tell its pages, shown by a function that does
//! nothing.

ghost use Rattle.spur_flat.specs.UntoldLaws.{LikeIsValid, UntoldWhereTold};

/// A piece that is carried from a state whose flat state is valid is carried from it where the swap is not told, too. A
/// flat state that is like a valid one but for data and swapped words is valid.
pub fn untold_where_told()
    ensures carried { UntoldWhereTold }
    ensures valid { LikeIsValid }
{}
