// The hash of a text, which composes, and the bucket that it falls into.
ghost use Rattle.std.specs.Prelude.{◌≡◌, ◌<◌};
ghost use Rattle.texts.specs.Hash.{hash_step, hash_of, bucket_of};

// The hash of a text and a byte more.
#[tactic(auto, using(crate::proofs::HashLaws::step_wraps))]
pub fn next(h: u32, b: u8) -> u32
    ensures { result ≡ hash_step h b }
{
    h.wrapping_add(u32::from(b)).wrapping_mul(2654435761)
}

// The hash of a text.
pub fn hash(t: &[u8]) -> u32
    ensures { result ≡ hash_of t.now }
{
    t.iter().fold(0, |h, b| next(h, *b))
}

// The bucket of a hash among n.
#[tactic(auto, unfolding(crate::specs::Hash::bucket_of))]
pub fn bucket(h: u32, n: usize) -> usize
    requires { n < 4294967296 }
    ensures { result ≡ bucket_of h n }
{
    h as usize * n / 4294967296
}
