/// A file of a [`MemoryOutside`](crate::MemoryOutside).
#[derive(Drop)]
pub struct NamedFile {
    pub name: String,
    pub content: Vec<u8>,
}

/// A call of a [`MemoryOutside`](crate::MemoryOutside) that is to fail.
#[derive(Clone, Copy)]
pub struct FailAt {
    /// The number of the call; loads, binds and puts are counted together, from 1.
    pub call: u64,
    /// How many octets of its piece a put that fails still appends, or the whole piece where it is shorter.
    pub kept: u64,
}
