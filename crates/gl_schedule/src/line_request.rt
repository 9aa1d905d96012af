//! Requests of governance that lines of a schedule made.

ghost use Rattle.std.specs.Prelude.{◌≡◌, option_copied};
ghost use Rattle.gl_schedule.specs.Governed.{request_named};

use gl_requests::GovernanceRequest;

/// A request of governance, with the number of the line that made it.
#[derive(Debug, Drop)]
pub struct LineRequest {
    pub line: u64,
    pub request: GovernanceRequest,
}

/// The request of the line with a number, if it made one.
pub(crate) fn request_named(requests: &[LineRequest], line: u128) -> Option<&LineRequest>
    ensures { option_copied result ≡ request_named requests.now line }
{
    requests
        .iter()
        .find(|request| u128::from(request.line) == line)
}
