//! What holds of the rules of governance: laws, and no code.

ghost use Rattle.std.specs.Prelude.{◌≡◌, ◌↔◌, ◌≤◌, ℕ, List, [], ◌∷◌, ◌++◌, Some, length, true, false};
ghost use Rattle.std.specs.List.{list_all};
ghost use Rattle.gl_base.specs.Bytes.{are_bytes};
ghost use Rattle.gl_hss.specs.Bytes.{number_at};
ghost use Rattle.gl_hss.specs.Hss.{IsValid, IsEndorsed};
ghost use Rattle.gl_vmaps.specs.Changes.{Turns};
ghost use Rattle.gl_vmaps.specs.Tables.{value_in};
ghost use Rattle.gl_vmaps.specs.Writes.{is_ordered, is_write};
ghost use Rattle.gl_requests.specs.Encoding.{signed_bytes};
ghost use Rattle.gl_requests.specs.declared.request.MemberRequest.{MemberRequest};
ghost use Rattle.gl_gov_rules.specs.declared.change.Recorded.{Recorded};
ghost use Rattle.gl_gov_rules.specs.Signatures.{is_signed, is_endorsed};
ghost use Rattle.gl_gov_rules.specs.Changes.{history};
ghost use Rattle.gl_gov_rules.specs.Service.{identity, service_state};
ghost use Rattle.gl_gov_rules.specs.Governed.{Follows, IsBounded, IsGoverned, is_founding, is_recovery};
ghost use Rattle.gl_gov_rules.specs.Rows.{effect, effect_writes, rows, service_key, service_map, service_row, service_write};
ghost use Rattle.gl_gov_rules.specs.declared.row.ServiceRow.{ServiceRow};

/// What the tests of signatures mean by RFC 8554: a member's request is signed exactly where its
/// signature is a valid one under the member's key, which names one level, and a node is endorsed
/// exactly where the service's key of two levels endorses its key. No endorsement is longer than
/// an LMS signature.
pub fn law_of_signatures()
    ensures signed { (key identity : List ℕ) (m : MemberRequest) →
        length key ≡ 60 → are_bytes key ≡ true → are_bytes m.signature ≡ true →
        is_signed key identity m ≡ true
        ↔ (number_at key 0 ≡ 1) × IsValid key (signed_bytes identity m) m.signature }
    ensures endorsed { (identity key endorsement : List ℕ) →
        length identity ≡ 60 → are_bytes identity ≡ true → are_bytes endorsement ≡ true →
        is_endorsed identity key endorsement ≡ true ↔ IsEndorsed identity key endorsement }
    ensures endorsement_length { (identity key endorsement : List ℕ) →
        is_endorsed identity key endorsement ≡ true → length endorsement ≤ 2508 }
{}

/// Whatever requests were accepted one after another, all that they come to is bounded: so each row
/// is within the limits of keys and values.
pub fn law_of_bounds()
    ensures bounded { (rs : List Recorded) → IsGoverned rs → IsBounded (history rs) }
{}

/// Whatever requests were accepted one after another, each row of the governance tables is within
/// the limits of names, keys and values, and so is each write of a request that follows. A
/// request's write set turns the tables of those before it into those with it, and each of its
/// writes changes something. That of the first request is its rows.
pub fn law_of_rows()
    ensures rows_fit { (rs : List Recorded) → IsGoverned rs →
        list_all is_write (rows (history rs)) ≡ true }
    ensures effect_fits { (rs : List Recorded) (r : Recorded) → IsGoverned rs → Follows rs r →
        list_all is_write (effect_writes rs r) ≡ true }
    ensures effect_ordered { (rs : List Recorded) (r : Recorded) →
        is_ordered (effect_writes rs r) ≡ true }
    ensures turns { (rs : List Recorded) (r : Recorded) →
        Turns (effect_writes rs r) (effect rs) (effect (rs ++ r ∷ [])) }
    ensures first { (r : Recorded) → effect_writes [] r ≡ rows (history (r ∷ [])) }
{}

/// The service's row is there from the founding on and tells its state and the key in force. Only a
/// founding and a recovery name a key.
pub fn law_of_service()
    ensures founded { (r : Recorded) (rs : List Recorded) → IsGoverned (r ∷ rs) →
        (s : ServiceRow) × (service_row (history (r ∷ rs)) ≡ Some s) }
    ensures row { (rs : List Recorded) (s : ServiceRow) → service_row (history rs) ≡ Some s →
        value_in (effect rs) service_map service_key ≡ (service_write s).value }
    ensures identity { (rs : List Recorded) (s : ServiceRow) → service_row (history rs) ≡ Some s →
        identity (history rs) ≡ Some s.identity }
    ensures state { (rs : List Recorded) (s : ServiceRow) → service_row (history rs) ≡ Some s →
        service_state (history rs) ≡ Some s.state }
    ensures kept { (rs : List Recorded) (r : Recorded) → is_founding r.request ≡ false →
        is_recovery r.request ≡ false →
        identity (history (rs ++ r ∷ [])) ≡ identity (history rs) }
{}
