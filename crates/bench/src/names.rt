//! What the words of a row name.

/// The one of these names that a word is.
pub fn named<X: Copy>(word: &str, names: &[(&str, X)]) -> Option<X> {
    for (name, named) in names {
        if *name == word {
            return Some(*named);
        }
    }
    None
}
