//! The requests of a load, drawn from its seed.

ghost use Rattle.std.specs.Prelude.{◌≡◌, ℕ, ◌+◌, ◌<◌, ◌^◌, List, IfOk};
ghost use Rattle.gl_hss.specs.Bytes.{u32str};
ghost use Rattle.gl_tx.specs.declared.request.Operation.TheVariants.{Put};
ghost use Rattle.gl_load.specs.Requests.{load_map, load_request, words_after};

use gl_tx::{Operation, Request};
use gl_vmaps::{Key, MapName, Value};
use rand_chacha::ChaCha8Rng;
use rand_core::utils::NextWord;
use std::alloc::{AllocError, Global};

/// The map that all requests write to.
pub(crate) const LOAD_MAP: &[u8] = b"public:load";

/// The operation that puts a number at another one.
#[tactic(auto, unfolding(gl_hss::specs::Bytes::u32str))]
fn put(alloc: Global, key: u32, value: u32) -> Result<Operation, AllocError>
    ensures { IfOk result (λ operation. operation ≡ Put load_map (u32str key) (u32str value)) }
{
    Ok(Operation::Put {
        map: MapName::from_slice(alloc, LOAD_MAP)?,
        key: Key::from_slice(alloc, &key.to_be_bytes())?,
        value: Value::from_slice(alloc, &value.to_be_bytes())?,
    })
}

/// The next request, by the next two words. Fails only where memory runs out.
pub(crate) fn next_request(alloc: Global, words: &mut ChaCha8Rng) -> Result<Request, AllocError>
    ensures request { IfOk result (λ request. (seed : List ℕ) (n : ℕ) → n < 2 ^ 32 →
        words.old ≡ words_after seed n → request ≡ load_request seed n) }
    ensures words { (seed : List ℕ) (n : ℕ) → n < 2 ^ 32 →
        words.old ≡ words_after seed n → words.new ≡ words_after seed (n + 1) }
{
    let key = words.next_word() % 1000;
    let value = words.next_word();
    let operation = put(alloc, key, value)?;
    match Request::new(vec![in alloc; operation]?) {
        Some(request) => Ok(request),
        None => unreachable!(),
    }
}
