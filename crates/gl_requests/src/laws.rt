//! What holds of every request, as the contract of a function that does nothing.

ghost use Rattle.std.specs.Prelude.{◌≡◌, ℕ, List, Ok, true};
ghost use Rattle.gl_base.specs.Bytes.{are_bytes};
ghost use Rattle.gl_requests.specs.Encoding.{request_bytes};
ghost use Rattle.gl_requests.specs.Ranges.{is_request};
ghost use Rattle.gl_requests.specs.Parsing.{request_result};
ghost use Rattle.gl_requests.specs.declared.request.GovernanceRequest.{GovernanceRequest};

/// The bytes of a request whose fields are in their ranges are read as that request. Bytes that are
/// read as a request are the bytes of it, and its fields are in their ranges.
pub fn law_of_requests()
    ensures round_trip { (r : GovernanceRequest) → is_request r ≡ true →
        request_result (request_bytes r) ≡ Ok r }
    ensures only { (bytes : List ℕ) (r : GovernanceRequest) → are_bytes bytes ≡ true →
        request_result bytes ≡ Ok r → (is_request r ≡ true) × (bytes ≡ request_bytes r) }
{}
