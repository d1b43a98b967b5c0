/// How the proving of an input ended.
#[derive(Clone, Copy, PartialEq, Eq)]
pub enum ProveEnd {
    /// It is a paper that is true, and that was told.
    Proved,
    /// Its line of this number is faulty; 0 where it is longer than a paper.
    BadLine(u32),
    /// The input failed.
    ReadFault,
    /// The output failed.
    WriteFault,
    /// There was no memory.
    NoMemory,
}
