//! The members of a service, who sign requests of governance.

ghost use Rattle.std.specs.Prelude.{◌≡◌, ℕ, ◌+◌, ◌++◌, ◌∷◌, [], ◌^◌, ◌<◌, ◌≤◌, replicate, None, true, IsSome, IfOk, OnOk, OnErr, IfErr};
ghost use Rattle.gl_hss.specs.Types.{height};
ghost use Rattle.gl_hss.specs.Signer.{hss_signature};
ghost use Rattle.gl_requests.specs.Ranges.{is_act, is_member_request};
ghost use Rattle.gl_world.specs.declared.settings.Settings.{Settings};
ghost use Rattle.gl_world.specs.Keys.{private_key, member_seed};
ghost use Rattle.gl_world.specs.Founding.{genesis_of};
ghost use Rattle.gl_world.specs.Members.{next_leaf, leaf_limit, member_request, Refuses, unused_signer, IsSignerOf, leaves_used, IsReady, signature_at};

use crate::keys::{member_seed, private_key};
use crate::settings::Settings;
use gl_base::{Bytes, OrNoMemory};
use gl_hss::{HssSigner, KeyExhausted};
use gl_requests::{HssPublicKey, MemberAct, MemberRequest};
use std::alloc::{AllocError, Global};
use std::marker::Model;

// A place for each number that a byte can hold. No member has the number 0.
const PLACES: usize = 256;

/// The signer of a member, no leaf of which is reserved or used. Its tree takes some 35,000
/// digests.
fn unused_signer(alloc: Global, settings: &Settings, number: u8) -> Result<HssSigner, AllocError>
    ensures { IfOk result (λ signer. signer ≡ unused_signer settings.now number) }
{
    let key = private_key(alloc, &member_seed(settings, number))?;
    Ok(HssSigner::new(key, None, 0))
}

/// Makes the signer of a member where it isn't there yet.
fn make(
    alloc: Global,
    settings: &Settings,
    number: u8,
    place: &mut Option<HssSigner>,
) -> Result<(), AllocError>
    requires { IsSignerOf settings.now number place.old }
    ensures signer { IsSignerOf settings.now number place.new }
    ensures used { leaves_used place.new ≡ leaves_used place.old }
    ensures there { OnOk result (IsSome place.new) }
{
    if place.is_none() {
        *place = Some(unused_signer(alloc, settings, number)?);
    }
    Ok(())
}

/// Reserves the leaf that signs next, where it isn't reserved yet.
fn reserve_next(signer: &mut HssSigner) -> Result<(), KeyExhausted>
    ensures key { signer.new.key ≡ signer.old.key }
    ensures endorsement { signer.new.endorsement ≡ signer.old.endorsement }
    ensures used { signer.new.used ≡ signer.old.used }
    ensures reserved { OnOk result (signer.new.used < signer.new.reserved) }
    ensures leaf { OnOk result (signer.new.used < 2 ^ height signer.new.key.types) }
    ensures names { IfErr result (λ e. e.reserved ≡ 2 ^ height signer.old.key.types) }
    ensures exhausted { OnErr result (signer.old.used ≡ 2 ^ height signer.old.key.types) }
{
    if signer.used() == signer.reserved() {
        signer.reserve()?;
    }
    Ok(())
}

/// Readies a member's next leaf: it is reserved, and not used.
fn make_ready(
    alloc: Global,
    settings: &Settings,
    number: u8,
    place: &mut Option<HssSigner>,
) -> Result<(), OrNoMemory<KeyExhausted>>
    requires { IsSignerOf settings.now number place.old }
    ensures signer { IsSignerOf settings.now number place.new }
    ensures used { leaves_used place.new ≡ leaves_used place.old }
    ensures ready { OnOk result (IsReady place.new) }
    ensures leaf { OnOk result (leaves_used place.old < leaf_limit) }
    ensures refused { IfErr result (Refuses (leaves_used place.old)) }
{
    make(alloc, settings, number, place)?;
    let Some(signer) = place else {
        unreachable!();
    };
    match reserve_next(signer) {
        Ok(()) => Ok(()),
        Err(exhausted) => Err(OrNoMemory::Fault(exhausted)),
    }
}

/// The signature of a message by a member's next leaf, which isn't used by that.
fn signature(place: &Option<HssSigner>, message: &[u8]) -> Result<Vec<u8>, AllocError>
    requires { IsReady place.now }
    ensures { IfOk result (λ bytes. bytes.items ≡ signature_at place.now message.now) }
{
    let Some(signer) = place else {
        unreachable!();
    };
    match signer.signature(message) {
        Ok(bytes) => Ok(bytes),
        Err(_) => Err(AllocError),
    }
}

/// Uses a member's next leaf, whose signature goes out from here on.
fn spend(place: &mut Option<HssSigner>)
    requires { IsReady place.old }
    ensures used { leaves_used place.new ≡ leaves_used place.old + 1 }
    ensures signer { (s : Settings) (n : ℕ) → IsSignerOf s n place.old → IsSignerOf s n place.new }
{
    let Some(signer) = place else {
        unreachable!();
    };
    signer.spend();
}

/// Signs a message with a member's next leaf. Where it fails, no leaf is used.
fn sign_next(
    alloc: Global,
    settings: &Settings,
    number: u8,
    place: &mut Option<HssSigner>,
    message: &[u8],
) -> Result<Vec<u8>, OrNoMemory<KeyExhausted>>
    requires { IsSignerOf settings.now number place.old }
    ensures signer { IsSignerOf settings.now number place.new }
    ensures bytes { IfOk result (λ bytes. bytes.items
        ≡ hss_signature (private_key (member_seed settings.now number)) None
        (leaves_used place.old) message.now) }
    ensures leaf { OnOk result (leaves_used place.old < leaf_limit) }
    ensures spent { OnOk result (leaves_used place.new ≡ leaves_used place.old + 1) }
    ensures unused { OnErr result (leaves_used place.new ≡ leaves_used place.old) }
    ensures refused { IfErr result (Refuses (leaves_used place.old)) }
{
    make_ready(alloc, settings, number, place)?;
    let bytes = signature(place, message)?;
    spend(place);
    Ok(bytes)
}

/// A place for each number, with no signer yet.
fn no_signers(alloc: Global) -> Result<Vec<Option<HssSigner>>, AllocError>
    ensures { IfOk result (λ signers. signers.items ≡ replicate 256 None) }
{
    let mut signers = Vec::new(alloc);
    for _ in 0..PLACES {
        signers.push(None)?;
    }
    Ok(signers)
}

/// The members of a service, who sign requests of governance, each with the key of its own seed,
/// one leaf after another.
///
/// A member's key is grown when it first signs, and kept from then on.
#[derive(Drop)]
pub struct Members {
    settings: Settings,
    identity: HssPublicKey,
    // By the member's number; none before the member first signs.
    signers: Vec<Option<HssSigner>>,
    // Who signed so far, in order.
    signed: Vec<u8>,
    alloc: Global,
}

impl Model for Members {
    ghost use Rattle.gl_world.specs.Members.{Signed, AreKept};

    ghost Value = { Signed };

    ghost view = { λ m. record { settings = m.settings; signed = m.signed.items } };

    ghost invariant = { λ m. AreKept m.settings m.identity m.signers.items m.signed.items };
}

impl Members {
    /// Nobody has signed yet.
    pub fn new(
        alloc: Global,
        settings: Settings,
        identity: HssPublicKey,
    ) -> Result<Self, AllocError>
        requires identity { identity ≡ (genesis_of settings).identity }
        ensures members { IfOk result (λ members.
            members ≡ record { settings = settings; signed = [] }) }
    {
        Ok(Members {
            settings,
            identity,
            signers: no_signers(alloc)?,
            signed: Vec::new(alloc),
            alloc,
        })
    }

    /// Signs a message with a member's next leaf, and takes down that the member signed.
    fn sign_message(
        &mut self,
        number: u8,
        message: &[u8],
    ) -> Result<Vec<u8>, OrNoMemory<KeyExhausted>>
        ensures bytes { IfOk result (λ bytes. bytes.items
            ≡ hss_signature (private_key (member_seed self.old.settings number)) None
            (next_leaf self.old.signed number) message.now) }
        ensures left { OnOk result (next_leaf self.old.signed number < leaf_limit) }
        ensures spent { OnOk result
            (self.new ≡ record self.old { signed = self.old.signed ++ number ∷ [] }) }
        ensures refused { IfErr result (Refuses (next_leaf self.old.signed number)) }
        ensures err { OnErr result (self.new ≡ self.old) }
    {
        self.signed.reserve(1)?;
        let place = &mut self.signers[usize::from(number)];
        let bytes = sign_next(self.alloc, &self.settings, number, place, message)?;
        self.signed.push_reserved(number);
        Ok(bytes)
    }

    /// What a member asks for, signed with its next leaf. Refused where each leaf of its key is
    /// used. Running out of memory leaves all as it was.
    #[tactic(auto, unfolding(crate::specs::Members::member_request))]
    pub fn sign(
        &mut self,
        number: u8,
        act: MemberAct,
    ) -> Result<MemberRequest, OrNoMemory<KeyExhausted>>
        requires number { 1 ≤ number }
        requires act { is_act act ≡ true }
        ensures signed { IfOk result (λ request. request
            ≡ member_request self.old.settings number (next_leaf self.old.signed number) act) }
        ensures fits { IfOk result (λ request. is_member_request request ≡ true) }
        ensures left { OnOk result (next_leaf self.old.signed number < leaf_limit) }
        ensures spent { OnOk result
            (self.new ≡ record self.old { signed = self.old.signed ++ number ∷ [] }) }

        // An error that isn't running out of memory tells the number of leaves, and each of them is
        // used.
        ensures exhausted { IfErr result (Refuses (next_leaf self.old.signed number)) }
        ensures err { OnErr result (self.new ≡ self.old) }
    {
        let mut request = MemberRequest {
            member: number,
            act,
            signature: Bytes::from(Vec::new(self.alloc)),
        };
        let message = request.signed_bytes(self.alloc, &self.identity)?;
        request.signature = Bytes::from(self.sign_message(number, &message)?);
        Ok(request)
    }
}
