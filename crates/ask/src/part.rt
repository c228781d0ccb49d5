// A part of lent memory.

// The first n of s, or all of them where it has no more.
pub fn first<T>(s: &[T], n: usize) -> &[T] {
    &s[..n.min(s.len())]
}
