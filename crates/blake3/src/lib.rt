// BLAKE3 of a whole input, and the hash state as document 01 has it: lent to the feeding step and altered there.
#![tactic(auto)]

ghost use Rattle.std.specs.Prelude.{◌≡◌};
ghost use Rattle.hasher.specs.State.{start, fed};
ghost use Rattle.base.specs.Answers.{got_from};
ghost use Rattle.base.specs.Digest.{digest_bytes};
ghost use Rattle.blake3.specs.Blake3.{hash_asked, finish_asked};
ghost use Rattle.blake3.specs.Laws.{Laws};

use base::digest::Digest;
use base::error::ContainerError;
use compression::CHUNK_LEN;
pub use hasher::Hasher;
use hasher::one_chunk;

// The most bytes that are hashed alone.
pub const HASH_LIMIT: usize = 261376;

// The digest of `bytes`; 10 if there are more than `HASH_LIMIT`.
pub fn hash(bytes: &[u8]) -> Result<Digest, ContainerError>
    ensures { got_from digest_bytes result ≡ hash_asked bytes.now }
{
    if bytes.len() > HASH_LIMIT {
        return Err(ContainerError::TooLong);
    }
    if bytes.len() <= CHUNK_LEN {
        return Ok(Digest::from_words(one_chunk(bytes)));
    }
    finish(Hasher::new().update(bytes))
}

// A state that was fed nothing.
pub fn new() -> Hasher
    ensures { result ≡ start }
{
    Hasher::new()
}

// The digest of all that a state was fed; 10 if that was over the limit, in however many parts.
pub fn finish(state: Hasher) -> Result<Digest, ContainerError>
    ensures { got_from digest_bytes result ≡ finish_asked state }
{
    if HASH_LIMIT < state.taken() {
        return Err(ContainerError::TooLong);
    }
    Ok(Digest::from_words(state.finish()))
}

// As the Rust's `update`: the state is lent, and altered in place.
pub fn update(state: &mut Hasher, bytes: &[u8])
    ensures { state.new ≡ fed state.old bytes.now }
{
    *state = (*state).update(bytes);
}

// A state fed with one more part, by value.
pub fn fed_with(state: Hasher, bytes: &[u8]) -> Hasher
    ensures { result ≡ fed state bytes.now }
{
    let mut h = state;
    update(&mut h, bytes);
    h
}

// The claims of `specs/Laws.antt` hold. Empty body: the contract makes the checker prove them.
pub fn laws_hold()
    ensures { Laws }
{}
