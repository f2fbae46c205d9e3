// Numbers and digests in the buffers that the caller lends.
// Kept: 0 for no room, since these counts are what C gets.
ghost use Rattle.std.specs.Prelude.{◌≤◌, ◌≡◌, length};
ghost use Rattle.base.specs.Digest.{digest_bytes};
ghost use Rattle.base.specs.Answers.{got_from};
ghost use Rattle.lent.specs.Output.{put_at_start};
ghost use Rattle.answer_numbers.specs.Answers.{numbers_in};
ghost use Rattle.capi.specs.Lent.{digest_room, Answered, Hashed};

use answer_numbers::{Numbers, refusal};
use base::digest::{Digest, HASH_LEN};
use base::error::ContainerError;
use lent::put;

// The room for numbers that a caller lends.
pub const ROOM: usize = 64;

// An answer at the start of the buffer, if there is room.
pub fn put_answer(out: &mut [u64], answer: Numbers) -> usize
    ensures { Answered out.old (numbers_in answer) out.new result }
{
    if out.len() < ROOM {
        return 0;
    }
    put(out, 0, answer.as_slice())
}

// The 32 bytes of a digest at the start of the buffer.
fn put_digest(out: &mut [u8], digest: Digest)
    requires { digest_room ≤ length out.old }
    ensures { out.new ≡ put_at_start out.old (digest_bytes digest) }
{
    put(out, 0, &digest.bytes());
}

// A hash: the digest at the start of its buffer and a 0 at the start of the other, or the refusal's numbers there, if there is room for both.
pub fn put_hash(answer: Result<Digest, ContainerError>, digest: &mut [u8], out: &mut [u64]) -> usize
    ensures { Hashed (got_from digest_bytes answer) digest.old digest.new out.old out.new result }
{
    if digest.len() < HASH_LEN || out.len() < ROOM {
        return 0;
    }
    match answer {
        Ok(d) => {
            put_digest(digest, d);
            put(out, 0, &[0])
        }
        Err(e) => put_answer(out, refusal(e)),
    }
}
