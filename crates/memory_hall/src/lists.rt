use std::alloc::Global;

/// A copy of some items; of none where there is no memory, so that the test then fails.
pub fn copy<T: Copy>(alloc: Global, items: &[T]) -> Vec<T> {
    Vec::from_slice(alloc, items).unwrap_or(Vec::new(alloc))
}

/// The words of a call.
pub fn words_of(alloc: Global, words: &[&str]) -> Vec<String> {
    let mut all = Vec::new(alloc);
    for word in words {
        if let Ok(word) = String::from_str(alloc, word) {
            let _ = all.push(word);
        }
    }
    all
}
