// What the cases are run in, one after another.
#[derive(Drop)]
pub struct Buffers {
    pub tape: Vec<u8>,
    pub output: Vec<u8>,
    pub work: Vec<u8>,
}
