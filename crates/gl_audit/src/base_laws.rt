//! What holds of entries behind a base, where nothing is known of those up to it but the body of a
//! snapshot.

ghost use Rattle.std.specs.Prelude.{◌≡◌, ◌↔◌, ℕ, suc, ◌+◌, ◌<◌, ◌≤◌, List, [], ◌∷◌, ◌++◌, None, Some, true, length, slice_get, take, if◌then◌else◌};
ghost use Rattle.gl_merkle.specs.Peaks.{peaks_of, peaks_with, root_of_peaks};
ghost use Rattle.gl_merkle.specs.Tree.{root_of};
ghost use Rattle.gl_rules.specs.Log.{entry_at};
ghost use Rattle.gl_vmaps.specs.Rows.{are_ascending, rows_over};
ghost use Rattle.gl_vmaps.specs.Tables.{wrote_all};
ghost use Rattle.gl_entry.specs.Entry.{is_signature};
ghost use Rattle.gl_entry.specs.Leaf.{leaf_of};
ghost use Rattle.gl_entry.specs.declared.entry.Entry.{Entry};
ghost use Rattle.gl_requests.specs.declared.request.GovernanceRequest.{GovernanceRequest};
ghost use Rattle.gl_gov_rules.specs.Governed.{IsBounded};
ghost use Rattle.gl_gov_rules.specs.GovernedRows.{history_over};
ghost use Rattle.gl_gov_base.specs.GovernedOver.{FollowsOver, IsGovernedOver, IsReadInOrder};
ghost use Rattle.gl_snapshot_body.specs.Body.{no_body};
ghost use Rattle.gl_snapshot_body.specs.declared.body.Body.{Body};
ghost use Rattle.gl_ledger.specs.Audit.{audited, audited_over};
ghost use Rattle.gl_ledger.specs.Broken.{broken, broken_over};
ghost use Rattle.gl_ledger.specs.Layers.{Layers};
ghost use Rattle.gl_ledger.specs.Past.{commit_after, commit_from, last_signed, last_signed_over, past_of, past_over, signs_at, signs_over};
ghost use Rattle.gl_ledger.specs.Recordings.{recorded_in, recording_of, requests_of};
ghost use Rattle.gl_ledger.specs.ServiceRow.{identity_in};
ghost use Rattle.gl_ledger.specs.Snapshot.{all_peaks, governed_base, greatest_with, leaves_over, requests_over, snapshot_over, tables_over};
ghost use Rattle.gl_ledger.specs.Tree.{leaves_of, tables_of};
ghost use Rattle.gl_ledger.specs.declared.recording.Recording.TheVariants as recordings;
ghost use Rattle.gl_ledger.specs.Behind.{IsReadBody, IsSpelled, start_if};

/// Behind no base entries are a whole ledger: all that is said of them is what is said of that.
pub fn law_of_no_base()
    ensures past { (es : List Entry) → past_over no_body es ≡ past_of es }
    ensures broken { (layers : Layers) (es : List Entry) (e : Entry) →
        broken_over layers no_body es e ≡ broken layers es e }
    ensures audited { (layers : Layers) (es : List Entry) →
        audited_over layers no_body es ≡ audited layers es }
    ensures base { governed_base no_body ≡ None }
    ensures requests { (es : List Entry) → requests_over no_body es ≡ requests_of es }
    ensures tables { (es : List Entry) → tables_over no_body es ≡ tables_of es }
    ensures leaves { (es : List Entry) → leaves_over no_body es ≡ leaves_of es }
    ensures peaks { (es : List Entry) → all_peaks no_body es ≡ peaks_of (leaves_of es) }
    ensures root { (es : List Entry) →
        root_of_peaks (all_peaks no_body es) ≡ root_of (leaves_of es) }
    ensures signs { (es : List Entry) (seqno : ℕ) →
        signs_over no_body es seqno ≡ signs_at (entry_at es seqno) }
    ensures last_signed { (es : List Entry) → last_signed_over no_body es ≡ last_signed es }
{}

/// What one more entry makes of entries behind a base. Its writes come after all others. Its leaf
/// is that under the identity in force once they are made, and is put to the peaks of all entries
/// before it. The request that it records, if it records one, comes last.
pub fn law_of_pushed()
    ensures tables { (body : Body) (es : List Entry) (e : Entry) →
        tables_over body (es ++ e ∷ []) ≡ wrote_all (tables_over body es) e.writes }
    ensures leaves { (body : Body) (es : List Entry) (e : Entry) →
        leaves_over body (es ++ e ∷ [])
        ≡ leaves_over body es ++ leaf_of (identity_in (tables_over body (es ++ e ∷ []))) e ∷ [] }
    ensures leaf_count { (body : Body) (es : List Entry) →
        length (leaves_over body es) ≡ length es }
    ensures peaks { (body : Body) (es : List Entry) (e : Entry) →
        all_peaks body (es ++ e ∷ [])
        ≡ peaks_with (suc (body.base + length es)) (body.base + length es) (all_peaks body es)
        (leaf_of (identity_in (tables_over body (es ++ e ∷ []))) e) }
    ensures requests { (body : Body) (es : List Entry) (e : Entry) →
        requests_over body (es ++ e ∷ [])
        ≡ requests_over body es ++ recorded_in (body.base + length es + 1) e.content }
{}

/// What one more entry makes of the body of a snapshot of entries behind a base: of each of its
/// fields but the peaks, of which `law_of_pushed` tells.
pub fn law_of_snapshot_over()
    ensures base { (body : Body) (es : List Entry) (e : Entry) →
        (snapshot_over body (es ++ e ∷ [])).base ≡ (snapshot_over body es).base + 1 }
    ensures view { (body : Body) (es : List Entry) (e : Entry) →
        (snapshot_over body (es ++ e ∷ [])).view ≡ e.view }
    ensures commit { (body : Body) (es : List Entry) (e : Entry) →
        (snapshot_over body (es ++ e ∷ [])).commit
        ≡ greatest_with (snapshot_over body es).commit e.content }
    ensures views { (body : Body) (es : List Entry) (e : Entry) →
        (snapshot_over body (es ++ e ∷ [])).views
        ≡ (snapshot_over body es).views ++ start_if (snapshot_over body es).view e }
    ensures rows { (body : Body) (es : List Entry) (e : Entry) →
        are_ascending body.rows ≡ true →
        (snapshot_over body (es ++ e ∷ [])).rows
        ≡ rows_over (snapshot_over body es).rows e.writes }
    ensures ascending { (body : Body) (es : List Entry) →
        are_ascending body.rows ≡ true → are_ascending (snapshot_over body es).rows ≡ true }
{}

/// What one more entry makes of the signatures behind a base: at seqnos up to the entries before it
/// they stand where they stood, and at its own where it is one, which is then the last. The commit
/// that the last one records is then its own.
pub fn law_of_signed_over()
    ensures before { (body : Body) (es : List Entry) (e : Entry) (seqno : ℕ) →
        seqno ≤ body.base + length es →
        signs_over body (es ++ e ∷ []) seqno ≡ signs_over body es seqno }
    ensures here { (body : Body) (es : List Entry) (e : Entry) →
        signs_over body (es ++ e ∷ []) (body.base + length es + 1) ≡ is_signature e.content }
    ensures last { (body : Body) (es : List Entry) (e : Entry) →
        last_signed_over body (es ++ e ∷ [])
        ≡ (if is_signature e.content then body.base + length es + 1 else last_signed_over body es) }
    ensures commit { (body : Body) (es : List Entry) (e : Entry) →
        commit_from body.commit (es ++ e ∷ [])
        ≡ commit_after (commit_from body.commit es) e.content }
{}

/// Entries behind a base break no rule of the audit exactly where each of them breaks none after
/// those before it. So do those with one more that breaks none, and the first ones of them.
pub fn law_of_audited_over()
    ensures each { (layers : Layers) (body : Body) (es : List Entry) →
        audited_over layers body es ≡ None
        ↔ ((i : ℕ) (e : Entry) → slice_get es i ≡ Some e →
        broken_over layers body (take i es) e ≡ None) }
    ensures pushed { (layers : Layers) (body : Body) (es : List Entry) (e : Entry) →
        audited_over layers body es ≡ None → broken_over layers body es e ≡ None →
        audited_over layers body (es ++ e ∷ []) ≡ None }
    ensures cut { (layers : Layers) (body : Body) (es : List Entry) (to : ℕ) →
        audited_over layers body es ≡ None → audited_over layers body (take to es) ≡ None }
{}

/// The requests of governance of entries behind a base follow one another, where the rows of its
/// body spell and the entries break no rule: so the laws of governance over a base hold of them,
/// and all that they come to is bounded. The seqnos of the entries go on from the base.
pub fn law_of_governance_behind()
    ensures numbered { (layers : Layers) (body : Body) (es : List Entry) →
        audited_over layers body es ≡ None →
        (i : ℕ) (e : Entry) → slice_get es i ≡ Some e → e.seqno ≡ body.base + i + 1 }
    ensures governed { (layers : Layers) (body : Body) (es : List Entry) →
        IsSpelled body → audited_over layers body es ≡ None →
        IsGovernedOver (governed_base body) (requests_over body es) }
    ensures follows { (layers : Layers) (body : Body) (es : List Entry) (e : Entry)
        (request : GovernanceRequest) → IsSpelled body → audited_over layers body es ≡ None →
        broken_over layers body es e ≡ None →
        recording_of e.content ≡ Some (recordings.Governance request) →
        FollowsOver (governed_base body) (requests_over body es)
        (record { seqno = body.base + length es + 1; request = request }) }
    ensures read { (body : Body) → IsReadBody body → IsReadInOrder (governed_base body) }
    ensures bounded { (layers : Layers) (body : Body) (es : List Entry) →
        IsReadBody body → audited_over layers body es ≡ None →
        IsBounded (history_over (governed_base body) (requests_over body es)) }
{}

/// The key in force after entries behind a base that break no rule has 60 bytes, as an HSS public
/// key of a service has: also where there is no entry. In a whole ledger it has them from the
/// founding on.
pub fn law_of_key_behind()
    ensures sized { (layers : Layers) (body : Body) (es : List Entry) →
        IsReadBody body → audited_over layers body es ≡ None → 0 < body.base + length es →
        length (identity_in (tables_over body es)) ≡ 60 }
{}
