// A coordinate: its value, its pattern as it is stored, and the offset after its number.
#[derive(Clone, Copy)]
pub struct Coordinate {
    pub value: f64,
    pub pattern: u64,
    pub next: usize,
}
