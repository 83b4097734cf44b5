// What stands for a printed form, which is never made whole. Apart from module forms: a struct with a ghost field imports all its file's ghost uses,
// and those of forms name this one.
ghost use Rattle.std.specs.Prelude.{◌≤◌};

// Hash of a text, the power of the multiplier by its length, and the length, which stops at 65,536.
#[derive(Clone, Copy)]
pub struct Form {
    pub hash: u32,
    pub power: u32,
    pub len: usize,
    pub ghost short: { len ≤ 65536 },
}
