/// What is told of the acts that are done again, as they are.
pub trait Progress {
    /// So many acts of so many are done.
    fn done(&mut self, acts: u64, of: u64);
}
