ghost use Rattle.std.specs.Prelude.{◌≡◌, ◌≤◌, ◌-◌, ◌++◌, length, drop, replicate};
ghost use Rattle.rt_token.specs.Hmac.{hmac_sha256, block_key, padded};

use sha2::{Digest, Sha256};

/// The length in bytes of a block of SHA-256.
const BLOCK: usize = 64;

const INNER_PAD: u8 = 0x36;

const OUTER_PAD: u8 = 0x5c;

fn put_front(out: &mut [u8], key: &[u8])
    requires { length key.now ≤ length out.old }
    ensures { out.new ≡ key.now ++ drop (length key.now) out.old }
{
    out[..key.len()].copy_from_slice(key);
}

fn zero_padded(key: &[u8]) -> [u8; BLOCK]
    requires { length key.now ≤ 64 }
    ensures { result ≡ key.now ++ replicate (64 - length key.now) 0 }
{
    let mut block = [0u8; BLOCK];
    put_front(&mut block, key);
    block
}

/// The key in one block: a longer one is hashed first, and zeros follow.
fn block_of(key: &[u8]) -> [u8; BLOCK]
    ensures { result ≡ block_key key.now }
{
    if key.len() <= BLOCK {
        zero_padded(key)
    } else {
        let digest: [u8; 32] = Sha256::digest(key);
        zero_padded(&digest)
    }
}

fn xor(mut block: [u8; BLOCK], pad: u8) -> [u8; BLOCK]
    ensures { result ≡ padded pad block }
{
    for byte in block.iter_mut() {
        *byte ^= pad;
    }
    block
}

/// The authentication code of bytes under a key: HMAC (RFC 2104) over SHA-256. The bytes are hashed as they stand, so it
/// takes no memory.
#[tactic(auto, unfolding(crate::specs::Hmac::hmac_sha256))]
pub fn hmac(key: &[u8], bytes: &[u8]) -> [u8; 32]
    ensures { result ≡ hmac_sha256 key.now bytes.now }
{
    let block = block_of(key);
    let mut inner = Sha256::new();
    inner.update(xor(block, INNER_PAD));
    inner.update(bytes);
    let inner = inner.finalize();
    let mut outer = Sha256::new();
    outer.update(xor(block, OUTER_PAD));
    outer.update(inner);
    outer.finalize()
}
