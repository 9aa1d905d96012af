//! What the text is read as.

ghost use Rattle.std.specs.Prelude.{◌≡◌, [], true, codes, IfOk};
ghost use Rattle.gl_base.specs.Answers.{Answers};
ghost use Rattle.gl_base.specs.Json.{member_of};
ghost use Rattle.gl_base.specs.declared.json.FormsFault.{FormsFault};
ghost use Rattle.gl_consortium.specs.Texts.{fits, node_key_of, read};

use gl_base::{FormsFault, OrNoMemory, Pointer};
use gl_forms::{KeyForm, read_key, read_request, read_settings};
use gl_keyfile::Signing;
use gl_requests::{Genesis, HssPublicKey, LmsPublicKey, MemberAct, NodeId};
use std::alloc::{AllocError, Global};

/// What the text is read as.
#[derive(Debug, Drop)]
pub(crate) enum Document {
    /// A node's key, which is to be endorsed.
    NodeKey {
        key: LmsPublicKey,
        node: NodeId,
    },
    /// The settings of a service, which is to be opened.
    Settings(Genesis),
    /// What a member asks for, of the service with this key.
    Act {
        identity: HssPublicKey,
        member: u8,
        act: MemberAct,
    },
}

/// The fault of a key of another kind.
fn other_kind(alloc: Global) -> Result<FormsFault, AllocError>
    ensures { IfOk result (λ fault.
        fault ≡ FormsFault.Shape (member_of [] (codes "kind"))) }
{
    let mut path = Pointer::new(alloc);
    path.push_member(b"kind")?;
    Ok(FormsFault::Shape { path })
}

/// The key of a node. A key of another kind has another form.
fn node_key_of(alloc: Global, form: KeyForm) -> Result<Document, OrNoMemory<FormsFault>>
    ensures { Answers (λ d. d) result (node_key_of form) }
{
    match form {
        KeyForm::Node { key, node, .. } => Ok(Document::NodeKey { key, node }),
        KeyForm::Service { .. } | KeyForm::Member { .. } => {
            Err(OrNoMemory::Fault(other_kind(alloc)?))
        }
    }
}

/// What a text is read as, all of it, or the first value of it that has another form.
#[tactic(auto, unfolding(crate::specs::Texts::read))]
pub(crate) fn read_document(
    alloc: Global,
    signing: &Signing,
    text: &[u8],
) -> Result<Document, OrNoMemory<FormsFault>>
    ensures exact { Answers (λ d. d) result (read signing.now text.now) }
    ensures fits { IfOk result (λ d. fits d ≡ true) }
{
    match signing {
        Signing::Endorsement => {
            let form = read_key(alloc, text)?;
            node_key_of(alloc, form)
        }
        Signing::Opening => {
            let genesis = read_settings(alloc, text)?;
            Ok(Document::Settings(genesis))
        }
        Signing::Request { identity, member } => {
            let act = read_request(alloc, text)?;
            Ok(Document::Act {
                identity: *identity,
                member: *member,
                act,
            })
        }
    }
}
