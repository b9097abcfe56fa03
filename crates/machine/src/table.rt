// What look up finds.

// The lowest slot that matches, its output word, and how many slots were examined.
#[derive(Clone, Copy, PartialEq, Eq)]
pub struct Match {
    pub slot: usize,
    pub out: u64,
    pub examined: usize,
}
