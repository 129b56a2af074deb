//! Laws of arrays: an array is that of some replies.
ghost use Rattle.resp_values.specs.Law.{ArraysAreOfReplies, ArrayDeterminesReplies, ArrayIsOneDeeper};

/// Elements are an array exactly if they are the array of some replies.
pub fn arrays_are_of_replies()
    ensures { ArraysAreOfReplies }
{}

/// Those replies are determined by the elements: no two lists of replies have the same array.
pub fn array_determines_replies()
    ensures { ArrayDeterminesReplies }
{}

/// An array nests by one deeper than the deepest of its replies.
pub fn array_is_one_deeper()
    ensures { ArrayIsOneDeeper }
{}
